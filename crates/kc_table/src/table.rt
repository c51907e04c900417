//! The steps: open a table, store, load, and what passes tell each other.
//!
//! Each says what its pass has seen and how many loads and splits it has made, so that a call made of them can promise how often it looks.
ghost use Rattle.std.specs.Prelude.{◌≡◌, ◌<◌, ◌+◌, ◌++◌, [], ◌∷◌, IfOk};
ghost use mathlib.Core.List.{IsPrefix};
ghost use Rattle.kc_table.specs.Log.{value_at, event};
ghost use Rattle.kc_table.specs.TableState.{word_count};
ghost use Rattle.kc_table.specs.Legal.{Legal, IsTableOpening};

use crate::NoMemory;
use crate::pass::Pass;
use crate::rule::{Fork, Look, Put, Told};
use crate::view::Opening;
use crate::words::Words;
use crate::writer_seat::WriterSeat;
use atomic_table::Table;
use kc_words::Shape;
use std::alloc::Global;
use std::mem;

/// A new table with these opening words and an empty log, its writer's seat, and a first pass. The words are taken over, and dropped once
/// the table has them.
pub fn open(
    alloc: Global,
    shape: Shape,
    words: Vec<u64>,
) -> Result<(Words, WriterSeat, Pass), NoMemory>
    requires { IsTableOpening shape words.items }
    ensures words { IfOk result (λ r. (r.0.shape ≡ shape) × (r.0.opening ≡ words.items)) }
    ensures writer { IfOk result (λ r. r.1 ≡ record { table = r.0; log = [] }) }
    ensures pass { IfOk result (λ r. r.2 ≡ record { table = r.0; log = []; loads = 0; splits = 0 }) }
{
    let opening = Opening { shape, words };
    let (table, mut seat) = Table::of_words(alloc, &opening.words, &opening)?;
    let pass = Pass {
        seat: table.shared.split_seat::<Fork>(&mut seat),
    };
    Ok((Words { shape, table }, WriterSeat { seat }, pass))
}

/// Stores a value to a word: one atomic store. The log grows by it, and has to be legal with it.
pub fn store(words: &Words, writer: &mut WriterSeat, word: u32, value: u64)
    requires table { writer.old.table ≡ words.now }
    requires word { word < word_count words.now.shape }
    requires legal { Legal writer.old.table.shape writer.old.table.opening (writer.old.log ++ event word value ∷ []) }
    ensures { writer.new ≡ record { table = writer.old.table; log = writer.old.log ++ event word value ∷ [] } }
{
    words
        .table
        .shared
        .store::<Put>(&mut writer.seat, word as usize, value);
}

/// The value of a word: one atomic load. The pass has then seen a prefix of the log that extends what it had seen, and the answer is
/// the word's value after that prefix. It has made a load more.
pub fn load(words: &Words, pass: &mut Pass, word: u32) -> u64
    requires table { pass.old.table ≡ words.now }
    requires word { word < word_count words.now.shape }
    ensures table { pass.new.table ≡ pass.old.table }
    ensures longer { IsPrefix pass.old.log pass.new.log }
    ensures legal { Legal pass.new.table.shape pass.new.table.opening pass.new.log }
    ensures value { result ≡ value_at pass.new.table.opening pass.new.log word }
    ensures counted { (pass.new.loads ≡ pass.old.loads + 1) × (pass.new.splits ≡ pass.old.splits) }
{
    words
        .table
        .shared
        .load::<Look>(&mut pass.seat, word as usize)
}

/// Another pass that has seen as much and has made no step. The one that it is split from has made a split more.
pub fn split(words: &Words, pass: &mut Pass) -> Pass
    requires table { pass.old.table ≡ words.now }
    ensures old { pass.new ≡ record { table = pass.old.table; log = pass.old.log; loads = pass.old.loads; splits = pass.old.splits + 1 } }
    ensures new { result ≡ record { table = pass.old.table; log = pass.old.log; loads = 0; splits = 0 } }
{
    Pass {
        seat: words.table.shared.split_seat::<Fork>(&mut pass.seat),
    }
}

/// One pass takes in what another has seen: both are then prefixes of what it has seen. That takes one load, and the steps of the other
/// count as its own.
pub fn meet(words: &Words, pass: &mut Pass, other: Pass)
    requires table { (pass.old.table ≡ words.now) × (other.table ≡ words.now) }
    ensures table { pass.new.table ≡ pass.old.table }
    ensures this { IsPrefix pass.old.log pass.new.log }
    ensures that { IsPrefix other.log pass.new.log }
    ensures legal { Legal pass.new.table.shape pass.new.table.opening pass.new.log }
    ensures counted { (pass.new.loads ≡ pass.old.loads + other.loads + 1) × (pass.new.splits ≡ pass.old.splits + other.splits) }
{
    let Pass { seat } = other;
    words.table.shared.join_seat::<Told>(&mut pass.seat, seat);
    words.table.shared.load::<Look>(&mut pass.seat, 0);
}

/// The pass is told the whole log, of which it had seen a prefix. It begins anew with no load and no split.
pub fn tell(words: &Words, writer: &mut WriterSeat, pass: &mut Pass)
    requires table { (pass.old.table ≡ words.now) × (writer.old.table ≡ words.now) }
    ensures writer { writer.new ≡ writer.old }
    ensures pass { pass.new ≡ record { table = writer.old.table; log = writer.old.log; loads = 0; splits = 0 } }
    ensures longer { IsPrefix pass.old.log writer.old.log }
    ensures legal { Legal writer.old.table.shape writer.old.table.opening writer.old.log }
{
    let shared = &words.table.shared;
    let new = shared.split_seat::<Fork>(&mut writer.seat);
    let old = mem::replace(&mut pass.seat, new);
    shared.join_seat::<Told>(&mut writer.seat, old);
    shared.load::<Look>(&mut writer.seat, 0);
}

/// The shape that the table was opened with.
pub fn shape(words: &Words) -> Shape
    ensures { result ≡ words.now.shape }
{
    words.shape
}
