//! Strings of JSON that are put behind a page, byte for byte.
ghost use Rattle.std.specs.Prelude.{◌≡◌, ◌++◌, OnErr, OnOk, codes};
ghost use Rattle.std.specs.List.{flat_map};
ghost use Rattle.kc_io.specs.Causes.{HasCause};
ghost use Rattle.kc_lines.specs.Json.{json_byte, json_string, long_escape, short_escape};
ghost use Rattle.kc_lines.specs.Pages.{PassesOn, PassesPart};

use crate::hex::hex_digit;
use crate::page::Page;
use kc_io::Failed;
use kc_io::sink::Sink;

/// What stands behind the backslash for a byte that has a short escape.
fn short_escape(b: u8) -> Option<u8>
    ensures { result ≡ short_escape b }
{
    match b {
        b'"' | b'\\' => Some(b),
        0x08 => Some(b'b'),
        b'\t' => Some(b't'),
        b'\n' => Some(b'n'),
        0x0c => Some(b'f'),
        b'\r' => Some(b'r'),
        _ => None,
    }
}

/// Puts a byte without a short escape.
fn put_long<O: Sink>(page: &mut Page, out: &mut O, b: u8) -> Result<(), Failed>
    ensures passes { OnOk result (PassesOn (O.taken out.old) (O.taken out.new) page.old page.new (long_escape b)) }
    ensures part { OnErr result (PassesPart (O.taken out.old) (O.taken out.new) page.old (long_escape b)) }
    ensures cause { HasCause (O.faults out.old) (O.faults out.new) result }
{
    if b < b' ' {
        let escape = [
            b'\\',
            b'u',
            b'0',
            b'0',
            hex_digit(b / 16),
            hex_digit(b % 16),
        ];
        return page.put(out, &escape);
    }
    page.put(out, &[b])
}

/// Puts a byte of a string.
fn put_byte<O: Sink>(page: &mut Page, out: &mut O, b: u8) -> Result<(), Failed>
    ensures passes { OnOk result (PassesOn (O.taken out.old) (O.taken out.new) page.old page.new (json_byte b)) }
    ensures part { OnErr result (PassesPart (O.taken out.old) (O.taken out.new) page.old (json_byte b)) }
    ensures cause { HasCause (O.faults out.old) (O.faults out.new) result }
{
    match short_escape(b) {
        Some(letter) => page.put(out, &[b'\\', letter]),
        None => put_long(page, out, b),
    }
}

/// Puts the bytes of a string.
fn put_bytes<O: Sink>(page: &mut Page, out: &mut O, bytes: &[u8]) -> Result<(), Failed>
    ensures passes { OnOk result (PassesOn (O.taken out.old) (O.taken out.new) page.old page.new (flat_map json_byte bytes.now)) }
    ensures part { OnErr result (PassesPart (O.taken out.old) (O.taken out.new) page.old (flat_map json_byte bytes.now)) }
    ensures cause { HasCause (O.faults out.old) (O.faults out.new) result }
{
    for b in bytes {
        put_byte(page, out, *b)?;
    }
    Ok(())
}

/// Puts the bytes of a string, and the quote behind them.
fn put_string_end<O: Sink>(page: &mut Page, out: &mut O, bytes: &[u8]) -> Result<(), Failed>
    ensures passes { OnOk result (PassesOn (O.taken out.old) (O.taken out.new) page.old page.new (flat_map json_byte bytes.now ++ codes "\"")) }
    ensures part { OnErr result (PassesPart (O.taken out.old) (O.taken out.new) page.old (flat_map json_byte bytes.now ++ codes "\"")) }
    ensures cause { HasCause (O.faults out.old) (O.faults out.new) result }
{
    put_bytes(page, out, bytes)?;
    page.put(out, b"\"")
}

/// Puts bytes as a string of JSON, in quotes.
pub(crate) fn put_string<O: Sink>(page: &mut Page, out: &mut O, bytes: &[u8]) -> Result<(), Failed>
    ensures passes { OnOk result (PassesOn (O.taken out.old) (O.taken out.new) page.old page.new (json_string bytes.now)) }
    ensures part { OnErr result (PassesPart (O.taken out.old) (O.taken out.new) page.old (json_string bytes.now)) }
    ensures cause { HasCause (O.faults out.old) (O.faults out.new) result }
{
    page.put(out, b"\"")?;
    put_string_end(page, out, bytes)
}
