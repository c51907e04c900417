//! Vertices that stand between the heads of their levels, in one shared list.
//!
//! The list holds n vertices and heads of levels 0 to n: head k is item n + k, and the vertices of level k stand between head k and
//! head k + 1. An entry opens a section, in which vertices are moved, each once and by one put, and then sealed by a store of their
//! words. `specs/Heads.antt` has the list, `specs/Levels.antt` what contracts see of `Levels`, `specs/Makes.antt` what making all
//! moves of a plan does. The laws below have no code: they say that one put at a time gives the list of the state after a plan.
#![tactic(auto)]

mod levels;
mod making;

ghost use Rattle.std.specs.Prelude.{◌≡◌, ◌<◌, ◌*◌, ℕ, length, slice_index};
ghost use Rattle.kc_lists.specs.Lists.{member, Distinct};
ghost use Rattle.kc_graph.specs.Lawful.{IsCertified, Ranked};
ghost use Rattle.kc_graph.specs.declared.plan.Plan.{Plan};
ghost use Rattle.kc_graph.specs.Certificate.{Enumerates};
ghost use Rattle.kc_graph.specs.Plans.{moved_by, state_after};
ghost use Rattle.kc_graph.specs.declared.plan.Moves.{Moves};
ghost use Rattle.kc_cert.specs.Local.{IsLocal, MovesFit, moved_vertices};
ghost use Rattle.kc_order.specs.Writers.{HasRoom};
ghost use Rattle.kc_levels.specs.Heads.{after_puts, with_heads};
ghost use Rattle.kc_levels.specs.Makes.{AreLevelsOf, IsFresh, Makes, MayMake, puts_of};
ghost use Rattle.kc_levels.specs.Levels.{Levelled};

pub use levels::{LAST_NUMBER, Levels};
pub use making::{make_moves, moved_count};
pub use std::alloc::AllocError as NoMemory;

/// The puts of moves that fit, one at a time in the list with heads, give the list with heads of the state after the moves.
pub fn moves_keep_the_heads()
    ensures { (s : Ranked) (moves : Moves) → length s.core ≡ s.graph.size → Enumerates s.graph.size s.order
        → ((v : ℕ) → v < s.graph.size → slice_index s.core v < s.graph.size) → MovesFit s moves
        → after_puts s.graph.size moves (with_heads s.graph.size s.order s.core)
        ≡ with_heads s.graph.size (moved_by moves s).order (moved_by moves s).core }
{}

/// In a certified state the puts of a plan that passes the local test give the list with heads of the state after the plan.
pub fn local_plans_keep_the_heads()
    ensures { (s : Ranked) (plan : Plan) → IsCertified s → IsLocal s plan
        → after_puts s.graph.size plan.moves (with_heads s.graph.size s.order s.core)
        ≡ with_heads s.graph.size (state_after plan s).order (state_after plan s).core }
{}

/// Moves that fit put each vertex that they move once, and no other. Kept and plain plans put none.
pub fn moved_vertices_are_put_once()
    ensures { (s : Ranked) (moves : Moves) → MovesFit s moves
        → Distinct (puts_of moves) × ((v : ℕ) → member v (puts_of moves) ≡ member v (moved_vertices moves)) }
{}

/// In a certified state each core number is below the number of vertices.
pub fn certified_numbers_are_low()
    ensures { (s : Ranked) → IsCertified s → (v : ℕ) → v < s.graph.size → slice_index s.core v < s.graph.size }
{}

/// In a section that has moved nothing yet, over the levels of a certified state, the moves of a plan that passes the local test in
/// that state may be made, where the versions of the words leave room.
pub fn local_plans_may_be_made()
    ensures { (s : Ranked) (plan : Plan) (l : Levelled) → IsCertified s → IsLocal s plan → AreLevelsOf s l → IsFresh l
        → HasRoom l.table l.log (3 * length (moved_vertices plan.moves)) → MayMake l plan.moves }
{}

/// Over the levels of a state, the moves of a plan lead to the levels of the state after it.
pub fn plans_lead_to_the_state_after()
    ensures { (s : Ranked) (plan : Plan) (old new : Levelled) → AreLevelsOf s old → Makes old new plan.moves
        → AreLevelsOf (state_after plan s) new }
{}
