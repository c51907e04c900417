//! What one line of a text says, by the form that its first field tells, and what the first line of a text says.
ghost use Rattle.std.specs.Prelude.{◌≡◌, ◌∷◌, ◌<◌, [], length, MatchOption, IfSome};
ghost use Rattle.kc_text.specs.Lines.{fields};
ghost use Rattle.kc_text.specs.Forms.{all_said, batch_form, change_form, edge_form, is_comment, said_by, two_numbers};

use crate::bytes::cut_line;
use crate::change::ChangeLine;
use crate::digits::number;
use crate::fields::cut_field;
use crate::kind::Kind;
use crate::plain::plain_line;

/// What one line says.
#[derive(Clone, Copy)]
pub enum TextLine {
    /// The line is blank or a comment.
    Nothing,
    /// There is an edge between the two ids.
    Edge(u32, u32),
    /// A batch begins.
    Batch,
    /// The batch has one more change.
    Change(ChangeLine),
    /// The line has none of these forms, for this cause.
    Wrong(Kind),
}

fn is_comment(field: &[u8]) -> bool
    ensures { result ≡ is_comment field.now }
{
    match field.first() {
        Some(b) => *b == b'#' || *b == b'%',
        None => false,
    }
}

/// The two numbers that are all of the text's fields.
fn two_numbers(text: &[u8]) -> Result<(u32, u32), Kind>
    ensures { result ≡ two_numbers (fields text.now) }
{
    let Some((first, rest)) = cut_field(text) else {
        return Err(Kind::MissingField);
    };
    let a = number(first)?;
    let Some((second, rest)) = cut_field(rest) else {
        return Err(Kind::MissingField);
    };
    let b = number(second)?;
    if cut_field(rest).is_some() {
        return Err(Kind::ExtraField);
    }
    Ok((a, b))
}

fn edge_form(text: &[u8]) -> TextLine
    ensures { result ≡ edge_form (two_numbers (fields text.now)) }
{
    match two_numbers(text) {
        Ok((a, b)) => TextLine::Edge(a, b),
        Err(kind) => TextLine::Wrong(kind),
    }
}

fn batch_form(rest: &[u8]) -> TextLine
    ensures { result ≡ batch_form (fields rest.now) }
{
    match cut_field(rest) {
        Some(_) => TextLine::Wrong(Kind::ExtraField),
        None => TextLine::Batch,
    }
}

fn change_form(add: bool, rest: &[u8]) -> TextLine
    ensures { result ≡ change_form add (two_numbers (fields rest.now)) }
{
    match two_numbers(rest) {
        Ok((a, b)) => TextLine::Change(ChangeLine { add, a, b }),
        Err(kind) => TextLine::Wrong(kind),
    }
}

/// What a line says that is given without its line end. Its first field tells which form it has.
pub fn read_line(line: &[u8]) -> TextLine
    ensures { result ≡ said_by line.now }
{
    let Some((first, rest)) = cut_field(line) else {
        return TextLine::Nothing;
    };
    if is_comment(first) {
        TextLine::Nothing
    } else if first == b"batch".as_slice() {
        batch_form(rest)
    } else if first == b"+".as_slice() {
        change_form(true, rest)
    } else if first == b"-".as_slice() {
        change_form(false, rest)
    } else {
        edge_form(line)
    }
}

/// What the first line of a text says, and what follows it.
pub(crate) fn next_line(bytes: &[u8]) -> Option<(TextLine, &[u8])>
    ensures lines { MatchOption result (all_said bytes.now ≡ []) (λ r. all_said bytes.now ≡ r.0 ∷ all_said r.1.now) }
    ensures shorter { IfSome result (λ r. length r.1.now < length bytes.now) }
{
    if let Some(plain) = plain_line(bytes) {
        return Some(plain);
    }
    let (line, rest) = cut_line(bytes)?;
    Some((read_line(line), rest))
}
