//! What one line of a stream says: it tells what a line of a text tells, or it asks.
ghost use Rattle.std.specs.Prelude.{◌≡◌};
ghost use Rattle.kc_text.specs.Lines.{fields};
ghost use Rattle.kc_text.specs.Forms.{two_numbers};
ghost use Rattle.kc_stream.specs.Asking.{core_form, members_form, one_number, order_form, question_form, sizes_form, stream_line};

use crate::question::Question;
use kc_text::{Kind, TextLine, cut_field, number, read_line};

/// What one line of a stream says.
#[derive(Clone, Copy)]
pub enum StreamLine {
    /// It tells what a line of a text tells, or has no form at all.
    Tells(TextLine),
    /// It asks.
    Asks(Question),
}

/// The number that is all of the text's fields.
fn one_number(text: &[u8]) -> Result<u32, Kind>
    ensures { result ≡ one_number (fields text.now) }
{
    let Some((first, rest)) = cut_field(text) else {
        return Err(Kind::MissingField);
    };
    let only = number(first)?;
    if cut_field(rest).is_some() {
        return Err(Kind::ExtraField);
    }
    Ok(only)
}

/// The two numbers that are all of the text's fields.
fn two_numbers(text: &[u8]) -> Result<(u32, u32), Kind>
    ensures { result ≡ two_numbers (fields text.now) }
{
    let Some((first, rest)) = cut_field(text) else {
        return Err(Kind::MissingField);
    };
    let a = number(first)?;
    let b = one_number(rest)?;
    Ok((a, b))
}

fn core_form(text: &[u8]) -> StreamLine
    ensures { result ≡ core_form (one_number (fields text.now)) }
{
    match one_number(text) {
        Ok(id) => StreamLine::Asks(Question::Core(id)),
        Err(kind) => StreamLine::Tells(TextLine::Wrong(kind)),
    }
}

fn members_form(rest: &[u8]) -> StreamLine
    ensures { result ≡ members_form (one_number (fields rest.now)) }
{
    match one_number(rest) {
        Ok(level) => StreamLine::Asks(Question::Members(level)),
        Err(kind) => StreamLine::Tells(TextLine::Wrong(kind)),
    }
}

fn sizes_form(rest: &[u8]) -> StreamLine
    ensures { result ≡ sizes_form (fields rest.now) }
{
    match cut_field(rest) {
        Some(_) => StreamLine::Tells(TextLine::Wrong(Kind::ExtraField)),
        None => StreamLine::Asks(Question::Sizes),
    }
}

fn order_form(rest: &[u8]) -> StreamLine
    ensures { result ≡ order_form (two_numbers (fields rest.now)) }
{
    match two_numbers(rest) {
        Ok((a, b)) => StreamLine::Asks(Question::Order(a, b)),
        Err(kind) => StreamLine::Tells(TextLine::Wrong(kind)),
    }
}

/// What a line says that begins with `?`, by what stands behind that.
fn question_form(text: &[u8]) -> StreamLine
    ensures { result ≡ question_form (fields text.now) }
{
    let Some((first, rest)) = cut_field(text) else {
        return StreamLine::Tells(TextLine::Wrong(Kind::MissingField));
    };
    if first == b"core".as_slice() {
        members_form(rest)
    } else if first == b"sizes".as_slice() {
        sizes_form(rest)
    } else if first == b"order".as_slice() {
        order_form(rest)
    } else {
        core_form(text)
    }
}

/// What a line of a stream says that is given without its line end.
pub fn read_stream_line(line: &[u8]) -> StreamLine
    ensures { result ≡ stream_line line.now }
{
    let Some((first, rest)) = cut_field(line) else {
        return StreamLine::Tells(TextLine::Nothing);
    };
    if first == b"?".as_slice() {
        question_form(rest)
    } else {
        StreamLine::Tells(read_line(line))
    }
}
