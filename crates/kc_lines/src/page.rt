//! Bytes that are gathered, and written in pieces.
ghost use Rattle.std.specs.Prelude.{◌≡◌, ◌<◌, ◌+◌, [], IfOk, OnErr, OnOk, length};
ghost use Rattle.kc_io.specs.Causes.{HasCause};
ghost use Rattle.kc_lines.specs.Pages.{PassesOn, PassesPart};

use kc_io::sink::{Sink, write_all};
use kc_io::{Failed, NoMemory};
use std::alloc::Global;
use std::marker::Model;

/// The most bytes that are gathered before they are written.
const PAGE_BYTES: usize = 65_536;

/// Bytes that are not written yet. Room for them is reserved once, so that no later call takes memory.
///
/// Contracts see the bytes.
#[derive(Drop)]
pub struct Page {
    bytes: Vec<u8>,
}

impl Model for Page {
    ghost use Rattle.std.specs.Prelude.{◌≤◌, ℕ, List, vec_capacity, vec_len};
    ghost use Rattle.kc_lines.specs.declared.page.TheConstants.{PAGE_BYTES};

    ghost Value = { List ℕ };

    ghost view = { λ p. p.bytes.items };

    ghost invariant = { λ p. (vec_len p.bytes ≤ PAGE_BYTES) × (PAGE_BYTES ≤ vec_capacity p.bytes) };
}

impl Page {
    /// No bytes, and room for them.
    pub fn new(alloc: Global) -> Result<Page, NoMemory>
        ensures { IfOk result (λ page. page ≡ []) }
    {
        let bytes = Vec::with_capacity(alloc, PAGE_BYTES)?;
        Ok(Page { bytes })
    }

    /// Makes room for so many bytes behind what is gathered: where there is none, what is gathered is written, and the page is empty.
    fn make_room<O: Sink>(&mut self, out: &mut O, size: usize) -> Result<(), Failed>
        ensures room { OnOk result (PAGE_BYTES < length self.new + size → self.new ≡ []) }
        ensures passes { OnOk result (PassesOn (O.taken out.old) (O.taken out.new) self.old self.new []) }
        ensures part { OnErr result (PassesPart (O.taken out.old) (O.taken out.new) self.old []) }
        ensures cause { HasCause (O.faults out.old) (O.faults out.new) result }
    {
        if size <= PAGE_BYTES - self.bytes.len() {
            return Ok(());
        }
        self.write(out)
    }

    /// Puts a text behind what is gathered. Where there is no room for it, what is gathered is written first.
    pub fn put<O: Sink>(&mut self, out: &mut O, text: &[u8]) -> Result<(), Failed>
        ensures passes { OnOk result (PassesOn (O.taken out.old) (O.taken out.new) self.old self.new text.now) }
        ensures part { OnErr result (PassesPart (O.taken out.old) (O.taken out.new) self.old text.now) }
        ensures cause { HasCause (O.faults out.old) (O.faults out.new) result }
    {
        self.make_room(out, text.len())?;
        if text.len() > PAGE_BYTES - self.bytes.len() {
            return write_all(out, text);
        }
        self.bytes.extend_from_slice(text).unwrap();
        Ok(())
    }

    /// Writes what is gathered.
    pub fn write<O: Sink>(&mut self, out: &mut O) -> Result<(), Failed>
        ensures empty { OnOk result (self.new ≡ []) }
        ensures passes { OnOk result (PassesOn (O.taken out.old) (O.taken out.new) self.old [] []) }
        ensures part { OnErr result (PassesPart (O.taken out.old) (O.taken out.new) self.old []) }
        ensures cause { HasCause (O.faults out.old) (O.faults out.new) result }
    {
        write_all(out, &self.bytes)?;
        self.bytes.clear();
        Ok(())
    }
}
