//! Where workers enter their updates.
use kc_shared::Shared;
use kc_table::Name;
use std::alloc::Global;
use std::sync::ledger::Ledger;

/// What all updates of a round share: the state that they are entered into, the gate that is called before each try, and the allocator.
#[derive(Clone, Copy)]
pub struct Workplace<'a, K: Name + Ledger, G> {
    pub shared: &'a Shared<K>,
    pub gate: &'a G,
    pub alloc: Global,
}
