//! The lines in words. Where there is no memory, a part of a line may have been put at the end of the text.
ghost use Rattle.std.specs.Prelude.{◌≡◌, ◌++◌, OnOk};
ghost use Rattle.std.specs.Io.{StartsWith};
ghost use Rattle.std.specs.List.{flat_map};
ghost use Rattle.kc_text.specs.Kinds.{text_of};
ghost use Rattle.kc_reply.specs.Facts.{fact_of};
ghost use Rattle.kc_reply.specs.Words.{blank_number, change_words, core_words, fact_words, id_words, members_words, number_field, order_words};
ghost use Rattle.kc_reply.specs.Words.{refused_words, size_words, sizes_words, standing_words};

use crate::NoMemory;
use crate::level_size::LevelSize;
use crate::pieces::{put_field, put_text};
use crate::reply_line::ReplyLine;
use crate::standing::Standing;
use kc_report::summary;
use kc_text::{Kind, Refusal};

/// Puts a blank, and a number, or a dash where there is none.
fn put_number_field(out: &mut Vec<u8>, number: Option<u32>) -> Result<(), NoMemory>
    ensures ok { OnOk result (out.new.items ≡ out.old.items ++ number_field number) }
    ensures kept { StartsWith out.new.items out.old.items }
{
    match number {
        Some(number) => put_field(out, " ", number),
        None => put_text(out, " -"),
    }
}

/// Puts the number and the name of a kind of refusal.
fn put_kind(out: &mut Vec<u8>, kind: Kind) -> Result<(), NoMemory>
    ensures ok { OnOk result (out.new.items ≡ out.old.items ++ text_of kind) }
    ensures kept { StartsWith out.new.items out.old.items }
{
    put_field(out, "", kind.number())?;
    put_text(out, " ")?;
    put_text(out, kind.name())
}

/// Puts the line about a batch that is dropped.
fn put_refused(out: &mut Vec<u8>, batch: u32, refusal: Refusal) -> Result<(), NoMemory>
    ensures ok { OnOk result (out.new.items ≡ out.old.items ++ refused_words batch refusal) }
    ensures kept { StartsWith out.new.items out.old.items }
{
    let Refusal { line, kind } = refusal;
    put_field(out, "refused batch ", batch)?;
    put_field(out, " line ", line)?;
    put_text(out, " kind ")?;
    put_kind(out, kind)?;
    put_text(out, "\n")
}

/// Puts the line of the numbers of an id.
fn put_change(
    out: &mut Vec<u8>,
    id: u32,
    before: Option<u32>,
    now: Option<u32>,
) -> Result<(), NoMemory>
    ensures ok { OnOk result (out.new.items ≡ out.old.items ++ change_words id before now) }
    ensures kept { StartsWith out.new.items out.old.items }
{
    put_field(out, "", id)?;
    put_number_field(out, before)?;
    put_number_field(out, now)?;
    put_text(out, "\n")
}

/// Puts a line of a word and an id.
fn put_id(out: &mut Vec<u8>, word: &str, id: u32) -> Result<(), NoMemory>
    ensures ok { OnOk result (out.new.items ≡ out.old.items ++ id_words word.now id) }
    ensures kept { StartsWith out.new.items out.old.items }
{
    put_field(out, word, id)?;
    put_text(out, "\n")
}

/// Puts the line of the core number of an id.
fn put_core(out: &mut Vec<u8>, id: u32, core: Option<u32>) -> Result<(), NoMemory>
    ensures ok { OnOk result (out.new.items ≡ out.old.items ++ core_words id core) }
    ensures kept { StartsWith out.new.items out.old.items }
{
    put_field(out, "core ", id)?;
    put_number_field(out, core)?;
    put_text(out, "\n")
}

/// Puts numbers, with a blank before each.
fn put_numbers(out: &mut Vec<u8>, numbers: &[u32]) -> Result<(), NoMemory>
    ensures ok { OnOk result (out.new.items ≡ out.old.items ++ flat_map blank_number numbers.now) }
    ensures kept { StartsWith out.new.items out.old.items }
{
    for number in numbers {
        put_field(out, " ", *number)?;
    }
    Ok(())
}

/// Puts the line of the ids of the core of a level.
fn put_members(out: &mut Vec<u8>, level: u32, ids: &[u32]) -> Result<(), NoMemory>
    ensures ok { OnOk result (out.new.items ≡ out.old.items ++ members_words level ids.now) }
    ensures kept { StartsWith out.new.items out.old.items }
{
    put_field(out, "members ", level)?;
    put_numbers(out, ids)?;
    put_text(out, "\n")
}

/// Puts a core number, and how many vertices have it.
fn put_size(out: &mut Vec<u8>, size: LevelSize) -> Result<(), NoMemory>
    ensures ok { OnOk result (out.new.items ≡ out.old.items ++ size_words size) }
    ensures kept { StartsWith out.new.items out.old.items }
{
    put_field(out, " ", size.core)?;
    put_field(out, " ", size.vertices)
}

/// Puts core numbers, each with how many vertices have it.
fn put_each_size(out: &mut Vec<u8>, sizes: &[LevelSize]) -> Result<(), NoMemory>
    ensures ok { OnOk result (out.new.items ≡ out.old.items ++ flat_map size_words sizes.now) }
    ensures kept { StartsWith out.new.items out.old.items }
{
    for size in sizes {
        put_size(out, *size)?;
    }
    Ok(())
}

/// Puts the line that tells how many vertices have each core number.
fn put_sizes(out: &mut Vec<u8>, sizes: &[LevelSize]) -> Result<(), NoMemory>
    ensures ok { OnOk result (out.new.items ≡ out.old.items ++ sizes_words sizes.now) }
    ensures kept { StartsWith out.new.items out.old.items }
{
    put_text(out, "sizes")?;
    put_each_size(out, sizes)?;
    put_text(out, "\n")
}

/// The word for where an id stands to another, or a dash where one of them is no id, with a blank before it.
fn standing_word(standing: Option<Standing>) -> &'static str
    ensures { result.now ≡ standing_words standing }
{
    match standing {
        None => " -",
        Some(Standing::Before) => " before",
        Some(Standing::After) => " after",
        Some(Standing::Same) => " same",
    }
}

/// Puts the line that tells where one id stands to another.
fn put_order(
    out: &mut Vec<u8>,
    first: u32,
    second: u32,
    standing: Option<Standing>,
) -> Result<(), NoMemory>
    ensures ok { OnOk result (out.new.items ≡ out.old.items ++ order_words first second standing) }
    ensures kept { StartsWith out.new.items out.old.items }
{
    put_field(out, "order ", first)?;
    put_field(out, " ", second)?;
    put_text(out, standing_word(standing))?;
    put_text(out, "\n")
}

/// Puts a line.
pub(crate) fn put_words(out: &mut Vec<u8>, line: ReplyLine<'_>) -> Result<(), NoMemory>
    ensures ok { OnOk result (out.new.items ≡ out.old.items ++ fact_words (fact_of line.entry)) }
    ensures kept { StartsWith out.new.items out.old.items }
{
    match line {
        ReplyLine::Summary(line) => summary(out, &line),
        ReplyLine::Refused { batch, refusal } => put_refused(out, batch, refusal),
        ReplyLine::Change { id, before, now } => put_change(out, id, before, Some(now)),
        ReplyLine::Enter { id } => put_id(out, "enter ", id),
        ReplyLine::Leave { id } => put_id(out, "leave ", id),
        ReplyLine::Core { id, core } => put_core(out, id, core),
        ReplyLine::Members { level, ids } => put_members(out, level, ids),
        ReplyLine::Sizes { sizes } => put_sizes(out, sizes),
        ReplyLine::Order {
            first,
            second,
            standing,
        } => put_order(out, first, second, standing),
    }
}
