//! How the work of all desks stands after a round.
ghost use Rattle.std.specs.Prelude.{map};
ghost use Rattle.kc_batch.specs.Batches.{IsStanding};

use crate::desk::Desk;
use crate::left::Left;

/// What the workers have left, taken together.
#[derive(Clone, Copy, Debug, Drop, Eq, PartialEq)]
pub(crate) enum Standing {
    /// Nothing.
    Free,
    /// Some keep an update that is to be entered yet.
    Keeping,
    /// For some update there was no memory.
    Short,
}

/// Looks at each desk.
pub(crate) fn standing_of(desks: &Vec<Desk>) -> Standing
    ensures { IsStanding (map (λ d. d.work) desks.now.items) result }
{
    let mut standing = Standing::Free;
    for desk in desks {
        match desk.left {
            Left::Nothing => {}
            Left::Kept { .. } => standing = Standing::Keeping,
            Left::Dropped { .. } | Left::Untold { .. } => return Standing::Short,
        }
    }
    standing
}
