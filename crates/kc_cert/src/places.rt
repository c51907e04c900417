//! Where each number of a list stands in it.
ghost use Rattle.std.specs.Prelude.{◌≡◌, IfOk, nat_eq};
ghost use Rattle.std.specs.HashMap.{get};
ghost use Rattle.kc_cert.specs.Arrangements.{ArePlacesIn};

use crate::NoMemory;
use std::alloc::Global;
use std::collections::HashMap;

/// Where each number of a list stands in it, and whether none comes twice.
#[derive(Drop)]
pub(crate) struct Places {
    of: HashMap<u32, usize>,
    once: bool,
}

impl Places {
    /// The places in a list. A number that comes twice has its first one.
    pub(crate) fn in_list(alloc: Global, list: &[u32]) -> Result<Places, NoMemory>
        ensures { IfOk result (ArePlacesIn list.now) }
    {
        let mut of = HashMap::new(alloc);
        let mut once = true;
        for (place, x) in list.iter().enumerate() {
            if of.contains_key(x) {
                once = false;
            } else {
                of.insert(*x, place)?;
            }
        }
        Ok(Places { of, once })
    }

    /// Where the list has a number.
    pub(crate) fn get(&self, x: u32) -> Option<usize>
        ensures { result ≡ get nat_eq self.now.of x }
    {
        self.of.get(&x).copied()
    }

    /// Whether no number comes twice.
    pub(crate) fn once(&self) -> bool
        ensures { result ≡ self.now.once }
    {
        self.once
    }
}
