//! Updates of a graph.
ghost use Rattle.std.specs.Prelude.{◌<◌};

/// An edge that is to come, where `add` holds, or to go: the one between the vertices `u` and `v`, the lesser one first.
#[derive(Clone, Copy, Debug, PartialEq, Eq)]
pub struct Update {
    pub add: bool,
    pub u: u32,
    pub v: u32,
    ghost ordered: { u < v },
}
