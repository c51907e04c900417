//! Marks that a worker keeps and lends to its views, so that no view is as large as the graph.
//!
//! A view needs a mark for each vertex, to find what it was answered. To make them for every plan would cost the graph each time: so a
//! worker makes them once, and each view clears what it has set. The memory of a plan's answers comes back in the same way.
ghost use Rattle.std.specs.Prelude.{◌≡◌, ◌<◌, ℕ, All, IfOk, length, slice_index};
ghost use Rattle.kc_view.specs.Answers.{answers_in, nothing_answered};
ghost use Rattle.kc_view.specs.Marks.{AreClear, without_lists, without_places};

use crate::memo::nothing_used;
use kc_graph::{NoMemory, Used, UsedEdges, UsedPlace};
use std::alloc::Global;
use std::marker::Model;

/// Two clear marks for each vertex, eight bytes together, and the memory of answers that are no longer used. Contracts see the number of
/// vertices.
#[derive(Drop)]
pub struct Scratch {
    listed: Vec<u32>,
    placed: Vec<u32>,
    spare: Used,
}

impl Model for Scratch {
    ghost use Rattle.std.specs.Prelude.{ℕ, length};
    ghost use Rattle.std.specs.Prelude.{◌≡◌};
    ghost use Rattle.kc_view.specs.Answers.{answers_in, nothing_answered};
    ghost use Rattle.kc_view.specs.Marks.{AreClear};

    ghost Value = { ℕ };

    ghost view = { λ s. length s.listed.items };

    ghost invariant = { λ s. AreClear (length s.listed.items) s.listed.items × AreClear (length s.listed.items) s.placed.items
        × (answers_in s.spare ≡ nothing_answered) };
}

impl Scratch {
    /// Clear marks for this number of vertices, or `NoMemory` where there is none for them.
    pub fn new(alloc: Global, vertices: u32) -> Result<Scratch, NoMemory>
        ensures { IfOk result (λ s. s ≡ vertices) }
    {
        let listed = vec![in alloc; 0; vertices as usize]?;
        let placed = vec![in alloc; 0; vertices as usize]?;
        Ok(Scratch {
            listed,
            placed,
            spare: nothing_used(alloc),
        })
    }

    /// Marks for no vertex. It takes no memory.
    pub fn none(alloc: Global) -> Scratch
        ensures { result ≡ 0 }
    {
        Scratch {
            listed: Vec::new(alloc),
            placed: Vec::new(alloc),
            spare: nothing_used(alloc),
        }
    }

    /// The marks, and the memory for answers.
    pub(crate) fn into_marks(self) -> (Vec<u32>, Vec<u32>, Used)
        ensures marks { AreClear self result.0.items × AreClear self result.1.items }
        ensures spare { answers_in result.2 ≡ nothing_answered }
    {
        let Scratch {
            listed,
            placed,
            spare,
        } = self;
        (listed, placed, spare)
    }

    /// Keeps the memory of answers that are no longer used, for those of the next view.
    pub fn take_back(&mut self, used: Used)
        ensures { self.new ≡ self.old }
    {
        let mut used = used;
        used.edges.clear();
        used.places.clear();
        used.orders.clear();
        self.spare = used;
    }

    /// Marks that are clear again, and memory in which no answer is left.
    pub(crate) fn of_marks(listed: Vec<u32>, placed: Vec<u32>, spare: Used) -> Scratch
        requires marks { AreClear (length listed.items) listed.items × AreClear (length listed.items) placed.items }
        requires spare { answers_in spare ≡ nothing_answered }
        ensures { result ≡ length listed.items }
    {
        Scratch {
            listed,
            placed,
            spare,
        }
    }
}

/// Takes the mark from each vertex whose list was kept.
pub(crate) fn unmark_lists(marks: &mut [u32], edges: &[UsedEdges])
    requires { All (λ e. e.vertex < length marks.old) edges.now }
    ensures { (w : ℕ) → slice_index marks.new w ≡ without_lists edges.now marks.old w }
{
    for list in edges {
        marks[list.vertex as usize] = 0;
    }
}

/// Takes the mark from each vertex whose core number was kept.
pub(crate) fn unmark_places(marks: &mut [u32], places: &[UsedPlace])
    requires { All (λ p. p.vertex < length marks.old) places.now }
    ensures { (w : ℕ) → slice_index marks.new w ≡ without_places places.now marks.old w }
{
    for place in places {
        marks[place.vertex as usize] = 0;
    }
}
