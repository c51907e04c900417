//! The lines as JSON objects. Where there is no memory, a part of a line may have been put at the end of the text.
ghost use Rattle.std.specs.Prelude.{◌≡◌, ◌++◌, OnOk};
ghost use Rattle.std.specs.Io.{StartsWith};
ghost use Rattle.std.specs.List.{flat_map};
ghost use Rattle.kc_reply.specs.Facts.{fact_of};
ghost use Rattle.kc_reply.specs.Json.{change_json, comma_number, comma_size, core_json, fact_json, id_json, list_json, members_json, number_or_null};
ghost use Rattle.kc_reply.specs.Json.{numbers_json, order_json, overruled_member, refused_json, size_json, sizes_json, standing_json};
ghost use Rattle.kc_reply.specs.Json.{summary_end, summary_json};

use crate::NoMemory;
use crate::level_size::LevelSize;
use crate::pieces::{put_field, put_text};
use crate::reply_line::ReplyLine;
use crate::standing::Standing;
use kc_report::Line;
use kc_text::Refusal;

/// Puts a number, or `null` where there is none.
fn put_number_or_null(out: &mut Vec<u8>, number: Option<u32>) -> Result<(), NoMemory>
    ensures ok { OnOk result (out.new.items ≡ out.old.items ++ number_or_null number) }
    ensures kept { StartsWith out.new.items out.old.items }
{
    match number {
        Some(number) => put_field(out, "", number),
        None => put_text(out, "null"),
    }
}

/// Puts a number or `null`, with the text before it.
fn put_nullable(out: &mut Vec<u8>, label: &str, number: Option<u32>) -> Result<(), NoMemory>
    ensures ok { OnOk result (out.new.items ≡ out.old.items ++ (label.now ++ number_or_null number)) }
    ensures kept { StartsWith out.new.items out.old.items }
{
    put_text(out, label)?;
    put_number_or_null(out, number)
}

/// Puts the member that says how many changes of a batch were overruled, where some were.
fn put_overruled(out: &mut Vec<u8>, overruled: u32) -> Result<(), NoMemory>
    ensures ok { OnOk result (out.new.items ≡ out.old.items ++ overruled_member overruled) }
    ensures kept { StartsWith out.new.items out.old.items }
{
    if overruled == 0 {
        return Ok(());
    }
    put_field(out, ",\"overruled\":", overruled)
}

/// Puts the members of the edges and the greatest core number, and the end of the object.
fn put_summary_end(out: &mut Vec<u8>, edges: u64, top: u32) -> Result<(), NoMemory>
    ensures ok { OnOk result (out.new.items ≡ out.old.items ++ summary_end edges top) }
    ensures kept { StartsWith out.new.items out.old.items }
{
    put_field(out, ",\"edges\":", edges)?;
    put_field(out, ",\"top\":", top)?;
    put_text(out, "}\n")
}

/// Puts the object of a run's line.
fn put_summary(out: &mut Vec<u8>, line: Line) -> Result<(), NoMemory>
    ensures ok { OnOk result (out.new.items ≡ out.old.items ++ summary_json line) }
    ensures kept { StartsWith out.new.items out.old.items }
{
    match line {
        Line::Graph {
            vertices,
            edges,
            top,
        } => {
            put_field(out, "{\"event\":\"graph\",\"vertices\":", vertices)?;
            put_summary_end(out, edges, top)
        }
        Line::Rounds { rounds } => {
            put_field(out, "{\"event\":\"rounds\",\"rounds\":", rounds)?;
            put_text(out, "}\n")
        }
        Line::Batch {
            number,
            added,
            removed,
            kept,
            overruled,
            edges,
            top,
        } => {
            put_field(out, "{\"event\":\"batch\",\"batch\":", number)?;
            put_field(out, ",\"added\":", added)?;
            put_field(out, ",\"removed\":", removed)?;
            put_field(out, ",\"kept\":", kept)?;
            put_overruled(out, overruled)?;
            put_summary_end(out, edges, top)
        }
    }
}

/// Puts the object of a batch that is dropped.
fn put_refused(out: &mut Vec<u8>, batch: u32, refusal: Refusal) -> Result<(), NoMemory>
    ensures ok { OnOk result (out.new.items ≡ out.old.items ++ refused_json batch refusal) }
    ensures kept { StartsWith out.new.items out.old.items }
{
    let Refusal { line, kind } = refusal;
    put_field(out, "{\"event\":\"refused\",\"batch\":", batch)?;
    put_field(out, ",\"line\":", line)?;
    put_field(out, ",\"kind\":", kind.number())?;
    put_text(out, ",\"name\":\"")?;
    put_text(out, kind.name())?;
    put_text(out, "\"}\n")
}

/// Puts the object of the numbers of an id.
fn put_change(
    out: &mut Vec<u8>,
    id: u32,
    before: Option<u32>,
    now: Option<u32>,
) -> Result<(), NoMemory>
    ensures ok { OnOk result (out.new.items ≡ out.old.items ++ change_json id before now) }
    ensures kept { StartsWith out.new.items out.old.items }
{
    put_field(out, "{\"event\":\"change\",\"id\":", id)?;
    put_nullable(out, ",\"old\":", before)?;
    put_nullable(out, ",\"new\":", now)?;
    put_text(out, "}\n")
}

/// Puts an object that ends with an id, of which this text stands before the id.
fn put_id(out: &mut Vec<u8>, opening: &str, id: u32) -> Result<(), NoMemory>
    ensures ok { OnOk result (out.new.items ≡ out.old.items ++ id_json opening.now id) }
    ensures kept { StartsWith out.new.items out.old.items }
{
    put_field(out, opening, id)?;
    put_text(out, "}\n")
}

/// Puts the object of the core number of an id.
fn put_core(out: &mut Vec<u8>, id: u32, core: Option<u32>) -> Result<(), NoMemory>
    ensures ok { OnOk result (out.new.items ≡ out.old.items ++ core_json id core) }
    ensures kept { StartsWith out.new.items out.old.items }
{
    put_field(out, "{\"event\":\"core\",\"id\":", id)?;
    put_nullable(out, ",\"core\":", core)?;
    put_text(out, "}\n")
}

/// Puts numbers, with a comma before each.
fn put_later_numbers(out: &mut Vec<u8>, numbers: &[u32]) -> Result<(), NoMemory>
    ensures ok { OnOk result (out.new.items ≡ out.old.items ++ flat_map comma_number numbers.now) }
    ensures kept { StartsWith out.new.items out.old.items }
{
    for number in numbers {
        put_field(out, ",", *number)?;
    }
    Ok(())
}

/// Puts numbers, with commas between them.
fn put_numbers(out: &mut Vec<u8>, numbers: &[u32]) -> Result<(), NoMemory>
    ensures ok { OnOk result (out.new.items ≡ out.old.items ++ numbers_json numbers.now) }
    ensures kept { StartsWith out.new.items out.old.items }
{
    let Some((first, later)) = numbers.split_first() else {
        return Ok(());
    };
    put_field(out, "", *first)?;
    put_later_numbers(out, later)
}

/// Puts the object of the ids of the core of a level.
fn put_members(out: &mut Vec<u8>, level: u32, ids: &[u32]) -> Result<(), NoMemory>
    ensures ok { OnOk result (out.new.items ≡ out.old.items ++ members_json level ids.now) }
    ensures kept { StartsWith out.new.items out.old.items }
{
    put_field(out, "{\"event\":\"members\",\"core\":", level)?;
    put_text(out, ",\"ids\":[")?;
    put_numbers(out, ids)?;
    put_text(out, "]}\n")
}

/// Puts the object of a core number.
fn put_size(out: &mut Vec<u8>, size: LevelSize) -> Result<(), NoMemory>
    ensures ok { OnOk result (out.new.items ≡ out.old.items ++ size_json size) }
    ensures kept { StartsWith out.new.items out.old.items }
{
    put_field(out, "{\"core\":", size.core)?;
    put_field(out, ",\"vertices\":", size.vertices)?;
    put_text(out, "}")
}

/// Puts a comma, and the object of a core number.
fn put_later_size(out: &mut Vec<u8>, size: LevelSize) -> Result<(), NoMemory>
    ensures ok { OnOk result (out.new.items ≡ out.old.items ++ comma_size size) }
    ensures kept { StartsWith out.new.items out.old.items }
{
    put_text(out, ",")?;
    put_size(out, size)
}

/// Puts the objects of core numbers, with a comma before each.
fn put_later_sizes(out: &mut Vec<u8>, sizes: &[LevelSize]) -> Result<(), NoMemory>
    ensures ok { OnOk result (out.new.items ≡ out.old.items ++ flat_map comma_size sizes.now) }
    ensures kept { StartsWith out.new.items out.old.items }
{
    for size in sizes {
        put_later_size(out, *size)?;
    }
    Ok(())
}

/// Puts the objects of core numbers, with commas between them.
fn put_list(out: &mut Vec<u8>, sizes: &[LevelSize]) -> Result<(), NoMemory>
    ensures ok { OnOk result (out.new.items ≡ out.old.items ++ list_json sizes.now) }
    ensures kept { StartsWith out.new.items out.old.items }
{
    let Some((first, later)) = sizes.split_first() else {
        return Ok(());
    };
    put_size(out, *first)?;
    put_later_sizes(out, later)
}

/// Puts the object that tells how many vertices have each core number.
fn put_sizes(out: &mut Vec<u8>, sizes: &[LevelSize]) -> Result<(), NoMemory>
    ensures ok { OnOk result (out.new.items ≡ out.old.items ++ sizes_json sizes.now) }
    ensures kept { StartsWith out.new.items out.old.items }
{
    put_text(out, "{\"event\":\"sizes\",\"sizes\":[")?;
    put_list(out, sizes)?;
    put_text(out, "]}\n")
}

/// The string for where an id stands to another, and `null` where one of them is no id.
fn standing_value(standing: Option<Standing>) -> &'static str
    ensures { result.now ≡ standing_json standing }
{
    match standing {
        None => "null",
        Some(Standing::Before) => "\"before\"",
        Some(Standing::After) => "\"after\"",
        Some(Standing::Same) => "\"same\"",
    }
}

/// Puts the object that tells where one id stands to another.
fn put_order(
    out: &mut Vec<u8>,
    first: u32,
    second: u32,
    standing: Option<Standing>,
) -> Result<(), NoMemory>
    ensures ok { OnOk result (out.new.items ≡ out.old.items ++ order_json first second standing) }
    ensures kept { StartsWith out.new.items out.old.items }
{
    put_field(out, "{\"event\":\"order\",\"first\":", first)?;
    put_field(out, ",\"second\":", second)?;
    put_text(out, ",\"order\":")?;
    put_text(out, standing_value(standing))?;
    put_text(out, "}\n")
}

/// Puts a line.
pub(crate) fn put_json(out: &mut Vec<u8>, line: ReplyLine<'_>) -> Result<(), NoMemory>
    ensures ok { OnOk result (out.new.items ≡ out.old.items ++ fact_json (fact_of line.entry)) }
    ensures kept { StartsWith out.new.items out.old.items }
{
    match line {
        ReplyLine::Summary(line) => put_summary(out, line),
        ReplyLine::Refused { batch, refusal } => put_refused(out, batch, refusal),
        ReplyLine::Change { id, before, now } => put_change(out, id, before, Some(now)),
        ReplyLine::Enter { id } => put_id(out, "{\"event\":\"enter\",\"id\":", id),
        ReplyLine::Leave { id } => put_id(out, "{\"event\":\"leave\",\"id\":", id),
        ReplyLine::Core { id, core } => put_core(out, id, core),
        ReplyLine::Members { level, ids } => put_members(out, level, ids),
        ReplyLine::Sizes { sizes } => put_sizes(out, sizes),
        ReplyLine::Order {
            first,
            second,
            standing,
        } => put_order(out, first, second, standing),
    }
}
