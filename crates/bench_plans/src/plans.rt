//! Plans of many updates, each from the same state.
ghost use Rattle.std.specs.Prelude.{◌≡◌, ◌<◌, OnOk, true, false};
ghost use Rattle.kc_view.specs.Answers.{nothing_answered};

use kc_graph::{Plan, Update};
use kc_view::{PlainView, PlanFault};
use std::alloc::Global;

/// What the plans have asked, and how many of them move vertices.
#[derive(Clone, Copy, Default, Drop)]
pub(crate) struct Asked {
    pub plans: u64,
    pub lists: u64,
    pub most_lists: u64,
    pub cores: u64,
    pub orders: u64,
}

impl Asked {
    /// Counts one plan.
    pub(crate) fn count(&mut self, plan: &Plan) {
        let lists = plan.used.edges.len() as u64;
        self.plans = self.plans.wrapping_add(1);
        self.lists = self.lists.wrapping_add(lists);
        self.most_lists = self.most_lists.max(lists);
        self.cores = self.cores.wrapping_add(plan.used.places.len() as u64);
        self.orders = self.orders.wrapping_add(plan.used.orders.len() as u64);
    }
}

/// Plans insertions, one after another, each in the state that is viewed.
pub(crate) fn plan_insertions(
    alloc: Global,
    view: &mut PlainView,
    updates: &[Update],
) -> Result<Asked, PlanFault>
    requires { view.old.kept ≡ nothing_answered }
    ensures { OnOk result (view.new.kept ≡ nothing_answered) }
{
    let mut asked = Asked::default();
    for update in updates {
        if update.add && update.v < view.state().graph().vertices() {
            let plan = kc_insert::plan(alloc, view, *update)?;
            asked.count(&plan);
        }
    }
    Ok(asked)
}

/// Plans removals, one after another, each in the state that is viewed.
pub(crate) fn plan_removals(
    alloc: Global,
    view: &mut PlainView,
    updates: &[Update],
) -> Result<Asked, PlanFault>
    requires { view.old.kept ≡ nothing_answered }
    ensures { OnOk result (view.new.kept ≡ nothing_answered) }
{
    let mut asked = Asked::default();
    for update in updates {
        if !update.add && update.v < view.state().graph().vertices() {
            let plan = kc_remove::plan(alloc, view, *update)?;
            asked.count(&plan);
        }
    }
    Ok(asked)
}
