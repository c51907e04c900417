//! The vertices whose core numbers may differ from those that were published last.
ghost use Rattle.std.specs.Prelude.{◌≡◌, [], false, length, true};
ghost use Rattle.kc_cert.specs.Stands.{leaving};
ghost use Rattle.kc_published.specs.Showings.{Notes};

use kc_graph::Moves;
use std::alloc::Global;
use std::marker::Model;

/// These vertices, some more than once. Where they grow too many, or where there is no memory for one, the list lacks some from then on:
/// any vertex may have a new number.
#[derive(Drop)]
pub(crate) struct Moved {
    vertices: Vec<u32>,
    most: usize,
    lacks: bool,
}

impl Model for Moved {
    ghost use Rattle.kc_published.specs.Showings.{Noted};

    ghost Value = { Noted };

    ghost view = { λ m. record { vertices = m.vertices.items; lacks = m.lacks } };
}

impl Moved {
    /// None. Once there are so many the list lacks some.
    pub(crate) fn none(alloc: Global, most: usize) -> Moved
        ensures { result ≡ record { vertices = []; lacks = false } }
    {
        Moved {
            vertices: Vec::new(alloc),
            most,
            lacks: false,
        }
    }

    /// The vertices. All of them have their number anew where some are lacking.
    pub(crate) fn vertices(&self) -> &[u32]
        ensures { result.now ≡ self.now.vertices }
    {
        &self.vertices
    }

    /// Whether some are lacking.
    pub(crate) fn lacks(&self) -> bool
        ensures { result ≡ self.now.lacks }
    {
        self.lacks
    }

    /// Forgets them all.
    pub(crate) fn clear(&mut self)
        ensures { self.new ≡ record { vertices = []; lacks = false } }
    {
        self.vertices.clear();
        self.lacks = false;
    }

    /// Notes these vertices.
    fn note_all(&mut self, vertices: &[u32])
        ensures { Notes self.old self.new vertices.now }
    {
        let full = self.vertices.len() >= self.most;
        if self.lacks || full || self.vertices.extend_from_slice(vertices).is_err() {
            self.lacks = true;
        }
    }

    /// Notes the vertices that leave their level by these moves.
    pub(crate) fn note(&mut self, moves: &Moves)
        ensures { Notes self.old self.new (leaving moves.now) }
    {
        match moves {
            Moves::Kept | Moves::Plain => self.note_all(&[]),
            Moves::Rise { rise, .. } => self.note_all(rise),
            Moves::Fall { fall, .. } => self.note_all(fall),
        }
    }
}
