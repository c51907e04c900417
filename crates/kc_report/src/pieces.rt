//! The pieces of a line. Where there is no memory, some of them may have been put at the end of the text.
ghost use Rattle.std.specs.Prelude.{◌≡◌, [], ◌∷◌, ◌++◌, codes, length, OnOk};
ghost use Rattle.std.specs.Io.{StartsWith};
ghost use Rattle.std.specs.List.{flat_map};
ghost use Rattle.kc_report.specs.Lines.{core_lines, field, level_lines, line_text, member_line, members, overruled_field, pair_line};

use crate::{Line, NoMemory};
use itoa::{Buffer, Integer};

/// Puts a number, with the words before it.
fn put_field<N: Integer>(out: &mut Vec<u8>, label: &str, number: N) -> Result<(), NoMemory>
    ensures ok { OnOk result (out.new.items ≡ out.old.items ++ (label.now ++ N.text number)) }
    ensures kept { StartsWith out.new.items out.old.items }
{
    out.extend_from_slice(label.as_bytes())?;
    out.extend_from_slice(Buffer::new().format(number).as_bytes())
}

/// Puts a line.
pub(crate) fn put_line(out: &mut Vec<u8>, line: &Line) -> Result<(), NoMemory>
    ensures ok { OnOk result (out.new.items ≡ out.old.items ++ line_text line.now) }
    ensures kept { StartsWith out.new.items out.old.items }
{
    match *line {
        Line::Graph {
            vertices,
            edges,
            top,
        } => {
            put_field(out, "graph vertices ", vertices)?;
            put_rest(out, edges, top)
        }
        Line::Rounds { rounds } => {
            put_field(out, "hindex rounds ", rounds)?;
            end_line(out)
        }
        Line::Batch {
            number,
            added,
            removed,
            kept,
            overruled,
            edges,
            top,
        } => {
            put_field(out, "batch ", number)?;
            put_field(out, " added ", added)?;
            put_field(out, " removed ", removed)?;
            put_field(out, " kept ", kept)?;
            put_overruled(out, overruled)?;
            put_rest(out, edges, top)
        }
    }
}

/// Puts how many changes of a batch were overruled, where some were.
fn put_overruled(out: &mut Vec<u8>, overruled: u32) -> Result<(), NoMemory>
    ensures ok { OnOk result (out.new.items ≡ out.old.items ++ overruled_field overruled) }
    ensures kept { StartsWith out.new.items out.old.items }
{
    if overruled == 0 {
        return Ok(());
    }
    put_field(out, " overruled ", overruled)
}

/// Puts the rest of a line that ends with the edges and the greatest core number.
fn put_rest(out: &mut Vec<u8>, edges: u64, top: u32) -> Result<(), NoMemory>
    ensures ok { OnOk result
        (out.new.items ≡ out.old.items ++ (field (codes " edges ") edges ++ field (codes " top ") top ++ 10 ∷ [])) }
    ensures kept { StartsWith out.new.items out.old.items }
{
    put_field(out, " edges ", edges)?;
    put_field(out, " top ", top)?;
    end_line(out)
}

/// Puts the end of a line.
fn end_line(out: &mut Vec<u8>) -> Result<(), NoMemory>
    ensures ok { OnOk result (out.new.items ≡ out.old.items ++ 10 ∷ []) }
    ensures kept { StartsWith out.new.items out.old.items }
{
    out.push(b'\n')?;
    Ok(())
}

/// Puts a line with two numbers.
pub(crate) fn put_pair(out: &mut Vec<u8>, first: u32, second: u32) -> Result<(), NoMemory>
    ensures ok { OnOk result (out.new.items ≡ out.old.items ++ pair_line (first, second)) }
    ensures kept { StartsWith out.new.items out.old.items }
{
    put_field(out, "", first)?;
    put_field(out, " ", second)?;
    end_line(out)
}

/// Puts a line for each vertex.
pub(crate) fn put_core_lines(out: &mut Vec<u8>, ids: &[u32], core: &[u32]) -> Result<(), NoMemory>
    requires { length ids.now ≡ length core.now }
    ensures ok { OnOk result (out.new.items ≡ out.old.items ++ core_lines ids.now core.now) }
    ensures kept { StartsWith out.new.items out.old.items }
{
    for (id, core) in ids.iter().zip(core) {
        put_pair(out, *id, *core)?;
    }
    Ok(())
}

/// How many vertices have at least the level as their core number.
fn count_members(ids: &[u32], core: &[u32], level: u32) -> usize
    requires { length ids.now ≡ length core.now }
    ensures { result ≡ length (members ids.now core.now level) }
{
    let mut count = 0;
    for (_, number) in ids.iter().zip(core) {
        if level <= *number {
            count += 1;
        }
    }
    count
}

/// Puts a member's line.
fn put_member_line(out: &mut Vec<u8>, id: u32) -> Result<(), NoMemory>
    ensures ok { OnOk result (out.new.items ≡ out.old.items ++ member_line id) }
    ensures kept { StartsWith out.new.items out.old.items }
{
    put_field(out, "", id)?;
    end_line(out)
}

/// Puts a line for each vertex that has at least the level as its core number.
fn put_member_lines(
    out: &mut Vec<u8>,
    ids: &[u32],
    core: &[u32],
    level: u32,
) -> Result<(), NoMemory>
    requires { length ids.now ≡ length core.now }
    ensures ok { OnOk result
        (out.new.items ≡ out.old.items ++ flat_map member_line (members ids.now core.now level)) }
    ensures kept { StartsWith out.new.items out.old.items }
{
    for (id, core) in ids.iter().zip(core) {
        if level <= *core {
            put_member_line(out, *id)?;
        }
    }
    Ok(())
}

/// Puts the line of a level, and a line for each member of its core.
pub(crate) fn put_level_lines(
    out: &mut Vec<u8>,
    ids: &[u32],
    core: &[u32],
    level: u32,
) -> Result<(), NoMemory>
    requires { length ids.now ≡ length core.now }
    ensures ok { OnOk result (out.new.items ≡ out.old.items ++ level_lines ids.now core.now level) }
    ensures kept { StartsWith out.new.items out.old.items }
{
    put_field(out, "level ", level)?;
    put_field(out, " members ", count_members(ids, core, level))?;
    end_line(out)?;
    put_member_lines(out, ids, core, level)
}
