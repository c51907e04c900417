//! The line that answers a question.
ghost use Rattle.std.specs.Prelude.{◌≡◌, ◌≤◌, ◌<◌, ◌++◌, ◌^◌, true, OnErr, OnOk, length, take};
ghost use Rattle.kc_answers.specs.Answers.{answer_to, members_by, needs_layers, number_by, sizes_of};
ghost use Rattle.kc_reply.specs.Facts as fact;
ghost use Rattle.kc_reply.specs.Texts.{fact_text};

use crate::NoMemory;
use crate::finding::known_number;
use crate::listing::members_by;
use crate::numbers::Numbers;
use crate::order::standing_by;
use crate::sizes::sizes_of;
use kc_reply::{ReplyFormat, ReplyLine, put_reply_line};
use kc_stream::{Ids, Question};
use std::alloc::Global;

/// The core number of an id; none where it is none of those that have one.
fn core_of(ids: &Ids, core: &[u32], id: u32) -> Option<u32>
    ensures { result ≡ number_by (take (length core.now) ids.now) core.now id }
{
    match known_number(ids, core.len(), id) {
        Some(place) => Some(core[place as usize]),
        None => None,
    }
}

/// Puts the line of the ids of the core of a level.
fn put_members(
    alloc: Global,
    ids: &[u32],
    core: &[u32],
    level: u32,
    format: ReplyFormat,
    out: &mut Vec<u8>,
) -> Result<(), NoMemory>
    requires { length ids.now ≡ length core.now }
    ensures ok { OnOk result (out.new.items ≡ out.old.items ++ fact_text format (fact.Members level (members_by ids.now core.now level))) }
    ensures err { OnErr result (out.new.items ≡ out.old.items) }
{
    let listed = members_by(alloc, ids, core, level)?;
    put_reply_line(
        out,
        format,
        ReplyLine::Members {
            level,
            ids: &listed,
        },
    )
}

/// Puts the line that tells how many vertices have each core number.
fn put_sizes(
    alloc: Global,
    core: &[u32],
    format: ReplyFormat,
    out: &mut Vec<u8>,
) -> Result<(), NoMemory>
    requires { length core.now < 2 ^ 32 }
    ensures ok { OnOk result (out.new.items ≡ out.old.items ++ fact_text format (fact.Sizes (sizes_of core.now))) }
    ensures err { OnErr result (out.new.items ≡ out.old.items) }
{
    let sizes = sizes_of(alloc, core)?;
    put_reply_line(out, format, ReplyLine::Sizes { sizes: &sizes })
}

/// Whether the answer to a question speaks of layers.
pub fn needs_layers(question: Question) -> bool
    ensures { result ≡ needs_layers question }
{
    match question {
        Question::Order(_, _) => true,
        _ => false,
    }
}

/// Puts the line that answers a question about ids, their core numbers and their layers. An id is one of those that have a core number only
/// if its number is below how many core numbers there are. Only where [`needs_layers`] says so, there has to be a layer for each core
/// number. Where there is no memory, nothing is put.
///
/// # Example
///
/// ```rust
/// use kc_answers::{Numbers, put_answer};
/// use kc_reply::ReplyFormat;
/// use kc_stream::{Ids, Question};
///
/// let mut ids = Ids::new(alloc);
/// ids.name_both(30, 20)?;
/// ids.name(10)?;
/// let numbers = Numbers { core: &[1, 1], layer: &[0, 0] }; // of 30 and of 20, and none of 10
/// let words = ReplyFormat::Words;
/// let mut out = Vec::new(alloc);
/// put_answer(alloc, &ids, numbers, Question::Core(20), words, &mut out)?; // "core 20 1\n"
/// put_answer(alloc, &ids, numbers, Question::Core(10), words, &mut out)?; // "core 10 -\n"
/// put_answer(alloc, &ids, numbers, Question::Members(1), words, &mut out)?; // "members 1 20 30\n"
/// put_answer(alloc, &ids, numbers, Question::Sizes, words, &mut out)?; // "sizes 1 2\n"
/// put_answer(alloc, &ids, numbers, Question::Order(20, 30), words, &mut out)?; // "order 20 30 before\n"
/// ```
pub fn put_answer(
    alloc: Global,
    ids: &Ids,
    numbers: Numbers<'_>,
    question: Question,
    format: ReplyFormat,
    out: &mut Vec<u8>,
) -> Result<(), NoMemory>
    requires known { length numbers.core.now ≤ length ids.now }
    requires layered { needs_layers question ≡ true → length numbers.layer.now ≡ length numbers.core.now }
    ensures ok { OnOk result (out.new.items ≡ out.old.items ++ fact_text format
        (answer_to question (take (length numbers.entry.core.now) ids.now) numbers.entry.core.now numbers.entry.layer.now)) }
    ensures err { OnErr result (out.new.items ≡ out.old.items) }
{
    let _count = ids.count();
    let Numbers { core, layer } = numbers;
    match question {
        Question::Core(id) => {
            let core = core_of(ids, core, id);
            put_reply_line(out, format, ReplyLine::Core { id, core })
        }
        Question::Members(level) => {
            let known = &ids.names()[..core.len()];
            put_members(alloc, known, core, level, format, out)
        }
        Question::Sizes => put_sizes(alloc, core, format, out),
        Question::Order(first, second) => {
            let standing = standing_by(ids, core, layer, first, second);
            put_reply_line(
                out,
                format,
                ReplyLine::Order {
                    first,
                    second,
                    standing,
                },
            )
        }
    }
}
