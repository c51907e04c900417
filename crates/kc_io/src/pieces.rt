//! The pieces that a sink in memory was offered.
ghost use Rattle.std.specs.Prelude.{◌≡◌, ◌<◌, nat_eq, if◌then◌else◌};
ghost use Rattle.kc_io.specs.Causes.{one_more};

/// How long the first piece was (0 before any), how many texts were begun, up to the last value of a `u64`, and how
/// many bytes of the last piece are left. A piece that is as long as what was left of the one before goes on with
/// its text; any other begins one.
#[derive(Drop)]
pub(crate) struct Pieces {
    pub(crate) first: usize,
    pub(crate) begun: u64,
    pub(crate) rest: usize,
}

impl Pieces {
    /// No piece so far.
    pub(crate) fn new() -> Pieces
        ensures first { result.first ≡ 0 }
        ensures begun { result.begun ≡ 0 }
        ensures rest { result.rest ≡ 0 }
    {
        Pieces {
            first: 0,
            begun: 0,
            rest: 0,
        }
    }

    /// A piece of this length is offered, and nothing of it is taken yet.
    pub(crate) fn offer(&mut self, length: usize)
        ensures first { self.new.first ≡ (if nat_eq self.old.first 0 then length else self.old.first) }
        ensures begun { self.new.begun ≡ (if nat_eq length self.old.rest then self.old.begun else one_more self.old.begun) }
        ensures rest { self.new.rest ≡ length }
    {
        if self.first == 0 {
            self.first = length;
        }
        if length != self.rest {
            self.begun = self.begun.saturating_add(1);
        }
        self.rest = length;
    }
}
