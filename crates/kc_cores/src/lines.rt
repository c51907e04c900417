//! The lines of the commands.
ghost use Rattle.std.specs.Prelude.{◌≡◌, OnErr, OnOk};
ghost use Rattle.kc_io.specs.Causes.{HasCause};
ghost use Rattle.kc_lines.specs.Pages.{PassesOn, PassesPart};
ghost use Rattle.kc_lines.specs.Fields.{label_of};
ghost use Rattle.kc_cores.specs.Lines.{counts_line, edge_line, layer_line, member_line, number_line};

use kc_io::Failed;
use kc_io::sink::Sink;
use kc_lines::field::Field;
use kc_lines::format::Format;
use kc_lines::lines::put_line;
use kc_lines::page::Page;
use kc_lines::value::Value;

/// Puts the line of an id and its core number.
pub(crate) fn put_number_line<O: Sink>(
    page: &mut Page,
    out: &mut O,
    format: Format,
    id: Value<'_>,
    core: u64,
) -> Result<(), Failed>
    ensures passes { OnOk result (PassesOn (O.taken out.old) (O.taken out.new) page.old page.new (number_line format (label_of id.entry) core)) }
    ensures part { OnErr result (PassesPart (O.taken out.old) (O.taken out.new) page.old (number_line format (label_of id.entry) core)) }
    ensures cause { HasCause (O.faults out.old) (O.faults out.new) result }
{
    put_line(
        page,
        out,
        format,
        &[
            Field::new("id", id),
            Field::new("core", Value::Number(core)),
        ],
    )
}

/// Puts the line of a k, how many vertices the k-shell has, and how many vertices and edges the k-core has.
pub(crate) fn put_counts_line<O: Sink>(
    page: &mut Page,
    out: &mut O,
    format: Format,
    counts: (u64, u64, u64, u64),
) -> Result<(), Failed>
    ensures passes { OnOk result (PassesOn (O.taken out.old) (O.taken out.new) page.old page.new (counts_line format counts.0 counts.1 counts.2 counts.3)) }
    ensures part { OnErr result (PassesPart (O.taken out.old) (O.taken out.new) page.old (counts_line format counts.0 counts.1 counts.2 counts.3)) }
    ensures cause { HasCause (O.faults out.old) (O.faults out.new) result }
{
    let (k, shell, vertices, edges) = counts;
    put_line(
        page,
        out,
        format,
        &[
            Field::new("core", Value::Number(k)),
            Field::new("shell_vertices", Value::Number(shell)),
            Field::new("core_vertices", Value::Number(vertices)),
            Field::new("core_edges", Value::Number(edges)),
        ],
    )
}

/// Puts the line of an id.
pub(crate) fn put_member_line<O: Sink>(
    page: &mut Page,
    out: &mut O,
    format: Format,
    id: Value<'_>,
) -> Result<(), Failed>
    ensures passes { OnOk result (PassesOn (O.taken out.old) (O.taken out.new) page.old page.new (member_line format (label_of id.entry))) }
    ensures part { OnErr result (PassesPart (O.taken out.old) (O.taken out.new) page.old (member_line format (label_of id.entry))) }
    ensures cause { HasCause (O.faults out.old) (O.faults out.new) result }
{
    put_line(page, out, format, &[Field::new("id", id)])
}

/// Puts the line of the ids of both ends of an edge.
pub(crate) fn put_edge_line<O: Sink>(
    page: &mut Page,
    out: &mut O,
    format: Format,
    source: Value<'_>,
    target: Value<'_>,
) -> Result<(), Failed>
    ensures passes { OnOk result (PassesOn (O.taken out.old) (O.taken out.new) page.old page.new
        (edge_line format (label_of source.entry) (label_of target.entry))) }
    ensures part { OnErr result (PassesPart (O.taken out.old) (O.taken out.new) page.old
        (edge_line format (label_of source.entry) (label_of target.entry))) }
    ensures cause { HasCause (O.faults out.old) (O.faults out.new) result }
{
    put_line(
        page,
        out,
        format,
        &[Field::new("source", source), Field::new("target", target)],
    )
}

/// Puts the line of an id, its core number and its layer.
pub(crate) fn put_layer_line<O: Sink>(
    page: &mut Page,
    out: &mut O,
    format: Format,
    id: Value<'_>,
    core: u64,
    layer: u64,
) -> Result<(), Failed>
    ensures passes { OnOk result (PassesOn (O.taken out.old) (O.taken out.new) page.old page.new (layer_line format (label_of id.entry) core layer)) }
    ensures part { OnErr result (PassesPart (O.taken out.old) (O.taken out.new) page.old (layer_line format (label_of id.entry) core layer)) }
    ensures cause { HasCause (O.faults out.old) (O.faults out.new) result }
{
    put_line(
        page,
        out,
        format,
        &[
            Field::new("id", id),
            Field::new("core", Value::Number(core)),
            Field::new("layer", Value::Number(layer)),
        ],
    )
}
