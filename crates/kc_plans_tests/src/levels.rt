//! Moves, made one by one as `Moves` says.
use kc_graph::{Lawful, Moves, NoMemory};
use std::alloc::Global;

/// Core numbers, indexed by the vertex, and an order of the vertices.
#[derive(Drop)]
pub(crate) struct Levels {
    pub core: Vec<u32>,
    pub order: Vec<u32>,
}

impl Levels {
    /// Those of a state.
    pub(crate) fn of(alloc: Global, state: &Lawful) -> Result<Levels, NoMemory> {
        Ok(Levels {
            core: Vec::from_slice(alloc, state.core())?,
            order: Vec::from_slice(alloc, state.order())?,
        })
    }

    /// Makes the moves.
    pub(crate) fn make(&mut self, alloc: Global, moves: &Moves) -> Result<(), NoMemory> {
        match moves {
            Moves::Kept | Moves::Plain => {}
            Moves::Rise {
                level,
                rise,
                shifts,
            } => {
                let next = level.saturating_add(1);
                for (x, w) in shifts {
                    self.shift(*x, *w)?;
                }
                self.put_in_front(alloc, next, rise)?;
                self.renumber(rise, next);
            }
            Moves::Fall { level, fall } => {
                self.put_in_front(alloc, *level, fall)?;
                self.renumber(fall, level.saturating_sub(1));
            }
        }
        Ok(())
    }

    /// Puts `x` right after `w`. Where `w` is nowhere, `x` is lost, which a check notices.
    fn shift(&mut self, x: u32, w: u32) -> Result<(), NoMemory> {
        self.order.retain(|y| *y != x);
        if let Some(place) = self.order.iter().position(|y| *y == w) {
            self.order.insert(place + 1, x)?;
        }
        Ok(())
    }

    /// Whether a vertex has a core number below this level.
    fn is_below(&self, level: u32, y: u32) -> bool {
        self.core.get(y as usize).is_some_and(|core| *core < level)
    }

    /// Puts these in front of the others of this level and of those above, behind all that are below.
    fn put_in_front(&mut self, alloc: Global, level: u32, moved: &[u32]) -> Result<(), NoMemory> {
        let mut order = Vec::new(alloc);
        let mut behind = Vec::new(alloc);
        for y in &self.order {
            if moved.contains(y) {
                continue;
            }
            if self.is_below(level, *y) {
                order.push(*y)?;
            } else {
                behind.push(*y)?;
            }
        }
        order.extend_from_slice(moved)?;
        order.extend_from_slice(&behind)?;
        self.order = order;
        Ok(())
    }

    /// Gives each of these this core number.
    fn renumber(&mut self, moved: &[u32], number: u32) {
        for x in moved {
            if let Some(core) = self.core.get_mut(*x as usize) {
                *core = number;
            }
        }
    }
}
