//! Lines of fields that are put behind a page.
ghost use Rattle.std.specs.Prelude.{◌≡◌, ◌++◌, OnErr, OnOk, codes, decimal};
ghost use Rattle.std.specs.List.{flat_map};
ghost use Rattle.kc_io.specs.Causes.{HasCause};
ghost use Rattle.kc_lines.specs.Fields.{label_of};
ghost use Rattle.kc_lines.specs.Lines.{ending, field_text, fields_text, key_text, label_text, later_text, line_text, opening, separator};
ghost use Rattle.kc_lines.specs.Pages.{PassesOn, PassesPart};

use crate::field::Field;
use crate::format::Format;
use crate::json::put_string;
use crate::page::Page;
use crate::value::Value;
use itoa::Buffer;
use kc_io::Failed;
use kc_io::sink::Sink;

impl Format {
    /// What a line begins with.
    fn opening(self) -> &'static [u8]
        ensures { result.now ≡ opening self }
    {
        match self {
            Format::Tabs => b"",
            Format::Json => b"{",
        }
    }

    /// What stands between two fields.
    fn separator(self) -> &'static [u8]
        ensures { result.now ≡ separator self }
    {
        match self {
            Format::Tabs => b"\t",
            Format::Json => b",",
        }
    }

    /// What a line ends with.
    fn ending(self) -> &'static [u8]
        ensures { result.now ≡ ending self }
    {
        match self {
            Format::Tabs => b"\n",
            Format::Json => b"}\n",
        }
    }
}

/// Puts what a line begins with.
fn put_opening<O: Sink>(page: &mut Page, out: &mut O, format: Format) -> Result<(), Failed>
    ensures passes { OnOk result (PassesOn (O.taken out.old) (O.taken out.new) page.old page.new (opening format)) }
    ensures part { OnErr result (PassesPart (O.taken out.old) (O.taken out.new) page.old (opening format)) }
    ensures cause { HasCause (O.faults out.old) (O.faults out.new) result }
{
    page.put(out, format.opening())
}

/// Puts what stands between two fields.
fn put_separator<O: Sink>(page: &mut Page, out: &mut O, format: Format) -> Result<(), Failed>
    ensures passes { OnOk result (PassesOn (O.taken out.old) (O.taken out.new) page.old page.new (separator format)) }
    ensures part { OnErr result (PassesPart (O.taken out.old) (O.taken out.new) page.old (separator format)) }
    ensures cause { HasCause (O.faults out.old) (O.faults out.new) result }
{
    page.put(out, format.separator())
}

/// Puts what a line ends with.
fn put_ending<O: Sink>(page: &mut Page, out: &mut O, format: Format) -> Result<(), Failed>
    ensures passes { OnOk result (PassesOn (O.taken out.old) (O.taken out.new) page.old page.new (ending format)) }
    ensures part { OnErr result (PassesPart (O.taken out.old) (O.taken out.new) page.old (ending format)) }
    ensures cause { HasCause (O.faults out.old) (O.faults out.new) result }
{
    page.put(out, format.ending())
}

/// Puts a number.
fn put_number<O: Sink>(page: &mut Page, out: &mut O, number: u64) -> Result<(), Failed>
    ensures passes { OnOk result (PassesOn (O.taken out.old) (O.taken out.new) page.old page.new (decimal number)) }
    ensures part { OnErr result (PassesPart (O.taken out.old) (O.taken out.new) page.old (decimal number)) }
    ensures cause { HasCause (O.faults out.old) (O.faults out.new) result }
{
    page.put(out, Buffer::new().format(number).as_bytes())
}

/// Puts a number or a name.
fn put_value<O: Sink>(
    page: &mut Page,
    out: &mut O,
    format: Format,
    value: Value<'_>,
) -> Result<(), Failed>
    ensures passes { OnOk result (PassesOn (O.taken out.old) (O.taken out.new) page.old page.new (label_text format (label_of value.entry))) }
    ensures part { OnErr result (PassesPart (O.taken out.old) (O.taken out.new) page.old (label_text format (label_of value.entry))) }
    ensures cause { HasCause (O.faults out.old) (O.faults out.new) result }
{
    match (format, value) {
        (_, Value::Number(number)) => put_number(page, out, number),
        (Format::Tabs, Value::Name(name)) => page.put(out, name),
        (Format::Json, Value::Name(name)) => put_string(page, out, name),
    }
}

/// Puts the key of a field.
fn put_key_text<O: Sink>(page: &mut Page, out: &mut O, field: &Field<'_>) -> Result<(), Failed>
    ensures passes { OnOk result (PassesOn (O.taken out.old) (O.taken out.new) page.old page.new field.now.key) }
    ensures part { OnErr result (PassesPart (O.taken out.old) (O.taken out.new) page.old field.now.key) }
    ensures cause { HasCause (O.faults out.old) (O.faults out.new) result }
{
    page.put(out, field.key().as_bytes())
}

/// Puts the key of a field, a quote and a colon.
fn put_key_end<O: Sink>(page: &mut Page, out: &mut O, field: &Field<'_>) -> Result<(), Failed>
    ensures passes { OnOk result (PassesOn (O.taken out.old) (O.taken out.new) page.old page.new (field.now.key ++ codes "\":")) }
    ensures part { OnErr result (PassesPart (O.taken out.old) (O.taken out.new) page.old (field.now.key ++ codes "\":")) }
    ensures cause { HasCause (O.faults out.old) (O.faults out.new) result }
{
    put_key_text(page, out, field)?;
    page.put(out, b"\":")
}

/// Puts the key of a field in quotes, and a colon.
fn put_key<O: Sink>(page: &mut Page, out: &mut O, field: &Field<'_>) -> Result<(), Failed>
    ensures passes { OnOk result (PassesOn (O.taken out.old) (O.taken out.new) page.old page.new (key_text field.now.key)) }
    ensures part { OnErr result (PassesPart (O.taken out.old) (O.taken out.new) page.old (key_text field.now.key)) }
    ensures cause { HasCause (O.faults out.old) (O.faults out.new) result }
{
    page.put(out, b"\"")?;
    put_key_end(page, out, field)
}

/// Puts what a field has with its key before it.
fn put_member<O: Sink>(page: &mut Page, out: &mut O, field: &Field<'_>) -> Result<(), Failed>
    ensures passes { OnOk result (PassesOn (O.taken out.old) (O.taken out.new) page.old page.new (field_text Format.Json field.now)) }
    ensures part { OnErr result (PassesPart (O.taken out.old) (O.taken out.new) page.old (field_text Format.Json field.now)) }
    ensures cause { HasCause (O.faults out.old) (O.faults out.new) result }
{
    put_key(page, out, field)?;
    put_value(page, out, Format::Json, field.value())
}

/// Puts a field.
fn put_field<O: Sink>(
    page: &mut Page,
    out: &mut O,
    format: Format,
    field: &Field<'_>,
) -> Result<(), Failed>
    ensures passes { OnOk result (PassesOn (O.taken out.old) (O.taken out.new) page.old page.new (field_text format field.now)) }
    ensures part { OnErr result (PassesPart (O.taken out.old) (O.taken out.new) page.old (field_text format field.now)) }
    ensures cause { HasCause (O.faults out.old) (O.faults out.new) result }
{
    match format {
        Format::Tabs => put_value(page, out, Format::Tabs, field.value()),
        Format::Json => put_member(page, out, field),
    }
}

/// Puts a field behind another.
fn put_later<O: Sink>(
    page: &mut Page,
    out: &mut O,
    format: Format,
    field: &Field<'_>,
) -> Result<(), Failed>
    ensures passes { OnOk result (PassesOn (O.taken out.old) (O.taken out.new) page.old page.new (later_text format field.now)) }
    ensures part { OnErr result (PassesPart (O.taken out.old) (O.taken out.new) page.old (later_text format field.now)) }
    ensures cause { HasCause (O.faults out.old) (O.faults out.new) result }
{
    put_separator(page, out, format)?;
    put_field(page, out, format, field)
}

/// Puts the fields behind the first.
fn put_later_fields<O: Sink>(
    page: &mut Page,
    out: &mut O,
    format: Format,
    fields: &[Field<'_>],
) -> Result<(), Failed>
    ensures passes { OnOk result (PassesOn (O.taken out.old) (O.taken out.new) page.old page.new (flat_map (later_text format) fields.now)) }
    ensures part { OnErr result (PassesPart (O.taken out.old) (O.taken out.new) page.old (flat_map (later_text format) fields.now)) }
    ensures cause { HasCause (O.faults out.old) (O.faults out.new) result }
{
    for field in fields {
        put_later(page, out, format, field)?;
    }
    Ok(())
}

/// Puts fields with separators between them.
fn put_fields<O: Sink>(
    page: &mut Page,
    out: &mut O,
    format: Format,
    fields: &[Field<'_>],
) -> Result<(), Failed>
    ensures passes { OnOk result (PassesOn (O.taken out.old) (O.taken out.new) page.old page.new (fields_text format fields.now)) }
    ensures part { OnErr result (PassesPart (O.taken out.old) (O.taken out.new) page.old (fields_text format fields.now)) }
    ensures cause { HasCause (O.faults out.old) (O.faults out.new) result }
{
    let Some((first, later)) = fields.split_first() else {
        return Ok(());
    };
    put_field(page, out, format, first)?;
    put_later_fields(page, out, format, later)
}

/// Puts fields and the end of a line.
fn put_ended<O: Sink>(
    page: &mut Page,
    out: &mut O,
    format: Format,
    fields: &[Field<'_>],
) -> Result<(), Failed>
    ensures passes { OnOk result (PassesOn (O.taken out.old) (O.taken out.new) page.old page.new (fields_text format fields.now ++ ending format)) }
    ensures part { OnErr result (PassesPart (O.taken out.old) (O.taken out.new) page.old (fields_text format fields.now ++ ending format)) }
    ensures cause { HasCause (O.faults out.old) (O.faults out.new) result }
{
    put_fields(page, out, format, fields)?;
    put_ending(page, out, format)
}

/// Puts a line of these fields. `Failed` comes only where a call of the sink failed: then a prefix of what was on the page and of the line
/// was taken.
///
/// # Example
///
/// ```rust
/// use kc_lines::field::Field;
/// use kc_lines::format::Format;
/// use kc_lines::lines::put_line;
/// use kc_lines::page::Page;
/// use kc_lines::value::Value;
///
/// let mut page = Page::new(alloc)?;
/// let fields = [Field::new("id", Value::Name(b"Ann")), Field::new("core", Value::Number(2))];
/// put_line(&mut page, &mut out, Format::Tabs, &fields)?; // Ann<TAB>2
/// put_line(&mut page, &mut out, Format::Json, &fields)?; // {"id":"Ann","core":2}
/// page.write(&mut out)?;
/// ```
pub fn put_line<O: Sink>(
    page: &mut Page,
    out: &mut O,
    format: Format,
    fields: &[Field<'_>],
) -> Result<(), Failed>
    ensures passes { OnOk result (PassesOn (O.taken out.old) (O.taken out.new) page.old page.new (line_text format fields.now)) }
    ensures part { OnErr result (PassesPart (O.taken out.old) (O.taken out.new) page.old (line_text format fields.now)) }
    ensures cause { HasCause (O.faults out.old) (O.faults out.new) result }
{
    put_opening(page, out, format)?;
    put_ended(page, out, format, fields)
}
