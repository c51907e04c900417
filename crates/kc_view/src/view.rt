//! What a planner asks.
ghost use Rattle.std.specs.Prelude.{◌≡◌, ◌≢◌, ◌<◌, ℕ, true, length, IfOk, OnOk, IfErr, OnErr};
ghost use Rattle.kc_view.specs.Answers.{answers_in, has_list, list_of, has_core, core_of, with_order};
ghost use Rattle.kc_view.specs.Views.{Shown, KeepsLists, GoesOn, HandsOut, TellsList, TellsCore, HasViewCause};

use crate::fault::ViewFault;
use kc_graph::Used;

/// A graph with core numbers and an order, as a planner sees it: one question at a time, each answer kept.
///
/// The answers need not be those of one state: between two of them the graph may have changed. A call that misses saw it change. All
/// answers since the last `used` are kept, in the order of asking.
pub trait View {
    /// What contracts see of the view.
    ghost shown: { Self → Shown };

    /// The number of neighbours of `w`. The whole list is read at the first call for `w`, and is kept.
    fn degree(&mut self, w: u32) -> Result<u32, ViewFault>
        requires { w < (shown self.old).size }
        ensures goes_on { GoesOn (shown self.old) (shown self.new) }
        ensures told { OnOk result (TellsList (shown self.old).kept (shown self.new).kept w) }
        ensures lists { KeepsLists (shown self.new) }
        ensures length { IfOk result (λ n. n ≡ length (list_of (shown self.new).kept w)) }
        ensures same { OnErr result ((shown self.new).kept ≡ (shown self.old).kept) }
        ensures cause { IfErr result (λ fault. HasViewCause (shown self.old) (shown self.new) fault) };

    /// The neighbours of `w`, ascending, whose list was read.
    fn list(&self, w: u32) -> &[u32]
        requires read { has_list (shown self.now).kept w ≡ true }
        ensures { result.now ≡ list_of (shown self.now).kept w };

    /// The core number of `w`, which is read at the first call for `w`, and is kept.
    fn core(&mut self, w: u32) -> Result<u32, ViewFault>
        requires { w < (shown self.old).size }
        ensures goes_on { GoesOn (shown self.old) (shown self.new) }
        ensures told { OnOk result (TellsCore (shown self.old).kept (shown self.new).kept w) }
        ensures lists { KeepsLists (shown self.new) }
        ensures core { IfOk result (λ k. k ≡ core_of (shown self.new).kept w) }
        ensures same { OnErr result ((shown self.new).kept ≡ (shown self.old).kept) }
        ensures cause { IfErr result (λ fault. HasViewCause (shown self.old) (shown self.new) fault) };

    /// Whether `x` stands before `y` in the order. The core numbers of both were asked.
    fn precedes(&mut self, x: u32, y: u32) -> Result<bool, ViewFault>
        requires differ { x ≢ y }
        requires first { has_core (shown self.old).kept x ≡ true }
        requires second { has_core (shown self.old).kept y ≡ true }
        ensures goes_on { GoesOn (shown self.old) (shown self.new) }
        ensures lists { KeepsLists (shown self.new) }
        ensures told { IfOk result (λ before. (shown self.new).kept ≡ with_order (shown self.old).kept (record { x = x; y = y; before = before })) }
        ensures same { OnErr result ((shown self.new).kept ≡ (shown self.old).kept) }
        ensures cause { IfErr result (λ fault. HasViewCause (shown self.old) (shown self.new) fault) };

    /// Hands out all answers that were kept, each list in the order of asking, and keeps nothing.
    fn used(&mut self) -> Used
        ensures hands_out { HandsOut (shown self.old) (shown self.new) }
        ensures all { answers_in result ≡ (shown self.old).kept }
        ensures given { (shown self.new).is_given (answers_in result) };
}
