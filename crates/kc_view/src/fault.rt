//! Why a view or a planner gives no answer.
ghost use Rattle.std.specs.Prelude.{◌≡◌};
ghost use Rattle.kc_view.specs.declared.fault.ViewFault.TheVariants as view;
ghost use Rattle.kc_view.specs.declared.fault.PlanFault.TheVariants as plan;
ghost use Rattle.kc_view.specs.Faults.{plan_fault};

use kc_graph::NoMemory;
use kc_words::Again;

/// Why a view gives no answer.
#[derive(Clone, Copy, Debug, Drop, Eq, PartialEq)]
pub enum ViewFault {
    /// Two loads of one word differed, so what was read between them may fit no single moment.
    Miss(Again),
    /// There was no memory to keep the answer.
    NoMemory,
}

/// Why a planner gives no plan.
#[derive(Clone, Copy, Debug, Drop, Eq, PartialEq)]
pub enum PlanFault {
    /// The view missed: two loads of one word differed.
    Miss(Again),
    /// There was no memory, for the view or for the planner.
    NoMemory,
}

impl From<NoMemory> for ViewFault {
    ghost from_gives = { λ _ fault. fault ≡ view.NoMemory };

    fn from(_: NoMemory) -> ViewFault {
        ViewFault::NoMemory
    }
}

impl From<NoMemory> for PlanFault {
    ghost from_gives = { λ _ fault. fault ≡ plan.NoMemory };

    fn from(_: NoMemory) -> PlanFault {
        PlanFault::NoMemory
    }
}

impl From<ViewFault> for PlanFault {
    ghost from_gives = { λ fault result. result ≡ plan_fault fault };

    fn from(fault: ViewFault) -> PlanFault {
        match fault {
            ViewFault::Miss(again) => PlanFault::Miss(again),
            ViewFault::NoMemory => PlanFault::NoMemory,
        }
    }
}
