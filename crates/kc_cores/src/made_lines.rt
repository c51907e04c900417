//! The lines of a task, before they are written.
ghost use Rattle.std.specs.Prelude.{◌≤◌, ℕ, OnErr, OnOk, length, take};
ghost use Rattle.std.specs.Io.KnownBytes.{Appends};
ghost use Rattle.kc_io.specs.Causes.{HasCause};
ghost use Rattle.kc_cores.specs.Listings.{AreReady, made_text};

use crate::labels::Labels;
use crate::listing::{Listing, write_lines};
use crate::vertices::Vertices;
use kc_io::Failed;
use kc_io::sink::Sink;
use kc_lines::format::Format;
use kc_lines::page::Page;

/// All that is needed to write the lines of a task, so that writing them takes no memory.
#[derive(Drop)]
pub(crate) struct MadeLines {
    pub(crate) format: Format,
    pub(crate) listing: Listing,
    /// What is written for each vertex.
    pub(crate) labels: Labels,
    /// The core number of each vertex.
    pub(crate) core: Vec<u32>,
    pub(crate) page: Page,
}

impl MadeLines {
    /// Writes all lines.
    pub(crate) fn write<O: Sink>(self, out: &mut O) -> Result<(), Failed>
        requires { AreReady self }
        ensures whole { OnOk result (Appends (O.taken out.old) (O.taken out.new) (made_text self)) }
        ensures prefix { OnErr result ((n : ℕ) × (n ≤ length (made_text self)) × Appends (O.taken out.old) (O.taken out.new) (take n (made_text self))) }
        ensures cause { HasCause (O.faults out.old) (O.faults out.new) result }
    {
        let MadeLines {
            format,
            listing,
            labels,
            core,
            page,
        } = self;
        let vertices = Vertices {
            labels: &labels,
            core: &core,
        };
        write_lines(page, out, format, &listing, &vertices)
    }
}
