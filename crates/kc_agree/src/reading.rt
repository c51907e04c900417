//! One answer more: a core number by one load, an order by one comparison. Each call says what was so, and when, and keeps all that was
//! read before.
ghost use Rattle.std.specs.Prelude.{◌≡◌, ◌≢◌, ◌<◌, ◌+◌, true, false, IfErr, IfOk, OnErr, OnOk};
ghost use mathlib.Core.List.{IsPrefix};
ghost use Rattle.kc_graph.specs.SimpleGraph.{SimpleGraph};
ghost use Rattle.kc_view.specs.Answers.{has_core, with_order, with_place};
ghost use Rattle.kc_view.specs.Memory.{keeping};
ghost use Rattle.kc_order.specs.Standing.{Compares, Steps};
ghost use Rattle.kc_order.specs.declared.answer.Answer.TheVariants as answer;
ghost use Rattle.kc_table.specs.Log.{value_at};
ghost use Rattle.kc_table.specs.TableState.{first_vertex};
ghost use Rattle.kc_agree.specs.Reads.{HasOrderCause, IsOtherPlace, WereRead, order_answer, place_after, word_of_place};
ghost use Rattle.kc_agree.specs.Stamps.{core_after};

use crate::NoMemory;
use kc_graph::{UsedOrder, UsedPlace};
use kc_order::{Answer, precedes};
use kc_table::{Pass, Words, load, shape};
use kc_view::{Memo, ViewFault};
use kc_words::{Again, VertexWord};

/// Reads what the word of a vertex has as its core number, where it was not read yet: one load, which gives the place stamp too. While a
/// section is open this need not be a core number of any graph of the run.
pub fn read_core(words: &Words, pass: &mut Pass, memo: &mut Memo, v: u32) -> Result<u32, NoMemory>
    requires table { pass.old.table ≡ words.now }
    requires size { memo.old.size ≡ words.now.shape.fixed }
    requires vertex { v < words.now.shape.fixed }
    requires once { has_core memo.old.kept v ≡ false }
    ensures table { pass.new.table ≡ pass.old.table }
    ensures longer { IsPrefix pass.old.log pass.new.log }
    ensures steps { Steps pass.old pass.new 1 0 }
    ensures core { IfOk result (λ core. core ≡ core_after pass.new.table pass.new.log v) }
    ensures told { IfOk result (λ _. memo.new ≡ keeping memo.old.size (with_place memo.old.kept (place_after pass.new.table pass.new.log v))) }
    ensures same { OnErr result (memo.new ≡ memo.old) }
    ensures read { (opened : SimpleGraph) → WereRead pass.old.table opened pass.old.log memo.old.kept
        → WereRead pass.new.table opened pass.new.log memo.new.kept }
{
    let word = shape(words).vertex(v);
    let VertexWord { stamp, core } = VertexWord::of(load(words, pass, word));
    memo.keep_place(UsedPlace {
        vertex: v,
        stamp,
        core,
    })?;
    Ok(core)
}

/// Reads once more the core number and the stamp of a vertex that were read before: one load of its word. Where the word has another value
/// now, both come back.
pub fn read_again(words: &Words, pass: &mut Pass, place: UsedPlace) -> Result<(), Again>
    requires table { pass.old.table ≡ words.now }
    requires vertex { place.vertex < words.now.shape.fixed }
    ensures table { pass.new.table ≡ pass.old.table }
    ensures longer { IsPrefix pass.old.log pass.new.log }
    ensures steps { Steps pass.old pass.new 1 0 }
    ensures same { OnOk result (value_at pass.new.table.opening pass.new.log (first_vertex pass.new.table.shape + place.vertex) ≡ word_of_place place) }
    ensures again { IfErr result (IsOtherPlace pass.new.table pass.new.log place) }
{
    let UsedPlace {
        vertex,
        stamp,
        core,
    } = place;
    let word = shape(words).vertex(vertex);
    let first = VertexWord { stamp, core }.pack();
    let second = load(words, pass, word);
    if first != second {
        return Err(Again {
            word,
            first,
            second,
        });
    }
    Ok(())
}

/// Reads whether the first of two vertices stands before the second, where the core numbers of both were read: one comparison. It
/// misses where a word differs between its two loads.
pub fn read_order(
    words: &Words,
    pass: &mut Pass,
    memo: &mut Memo,
    x: u32,
    y: u32,
) -> Result<bool, ViewFault>
    requires table { pass.old.table ≡ words.now }
    requires first { x < words.now.shape.fixed }
    requires second { y < words.now.shape.fixed }
    requires differ { x ≢ y }
    requires first_read { has_core memo.old.kept x ≡ true }
    requires second_read { has_core memo.old.kept y ≡ true }
    ensures table { pass.new.table ≡ pass.old.table }
    ensures longer { IsPrefix pass.old.log pass.new.log }
    ensures compared { IfOk result (λ before. Compares pass.old pass.new x y (order_answer before)) }
    ensures told { IfOk result (λ before. memo.new ≡ keeping memo.old.size (with_order memo.old.kept (record { x = x; y = y; before = before }))) }
    ensures same { OnErr result (memo.new ≡ memo.old) }
    ensures cause { IfErr result (λ fault. HasOrderCause pass.old pass.new x y fault) }
    ensures read { (opened : SimpleGraph) → WereRead pass.old.table opened pass.old.log memo.old.kept
        → WereRead pass.new.table opened pass.new.log memo.new.kept }
{
    let before = match compare(words, pass, x, y) {
        Ok(before) => before,
        Err(again) => return Err(ViewFault::Miss(again)),
    };
    match memo.keep_order(UsedOrder { x, y, before }) {
        Ok(()) => Ok(before),
        Err(_) => Err(ViewFault::NoMemory),
    }
}

/// Whether the first of two vertices stands before the second. No vertex is ever out of the list.
fn compare(words: &Words, pass: &mut Pass, x: u32, y: u32) -> Result<bool, Again>
    requires table { pass.old.table ≡ words.now }
    requires first { x < words.now.shape.fixed }
    requires second { y < words.now.shape.fixed }
    requires differ { x ≢ y }
    ensures table { pass.new.table ≡ pass.old.table }
    ensures longer { IsPrefix pass.old.log pass.new.log }
    ensures compared { IfOk result (λ before. Compares pass.old pass.new x y (order_answer before)) }
    ensures again { IfErr result (λ again. Compares pass.old pass.new x y (answer.Again again)) }
{
    match precedes(words, pass, x, y) {
        Answer::Before => Ok(true),
        Answer::After => Ok(false),
        Answer::Again(again) => Err(again),
        Answer::Same | Answer::Absent { .. } => unreachable!(),
    }
}
