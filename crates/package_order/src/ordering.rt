//! The order of packages, kept while needs come.
ghost use Rattle.std.specs.Prelude.{◌≡◌, ◌<◌, ◌≤◌, ◌++◌, ◌∷◌, [], IfErr, IfOk, OnOk, length};
ghost use Rattle.kc_words.specs.declared.layout.TheConstants.{VERTICES};

use kc_order::{Answer, precedes};
use kc_table::{Pass, Words, shape};
use kc_topo::{Added, Arcs, DagFault, NoMemory};
use std::alloc::Global;

/// A need that would close a cycle: a walk from the package that is in need to the one that it needs, each step to a package that needs the
/// one before it.
#[derive(Drop)]
pub(crate) struct Refusal {
    pub(crate) walk: Vec<u32>,
}

/// Packages in an order in which each stands behind all that it needs. An arc leads to each package from each that it needs.
#[derive(Drop)]
pub(crate) struct PackageOrder {
    words: Words,
    arcs: Arcs,
    pass: Pass,
    ghost one_table: { (arcs.table ≡ words) × (pass.table ≡ words) },
}

impl PackageOrder {
    ghost use Rattle.kc_topo.specs.Dags.{IsAdded, IsRefused};

    /// So many packages, in ascending order, that need nothing yet.
    pub(crate) fn new(alloc: Global, packages: u32) -> Result<PackageOrder, NoMemory>
        requires low { 1 ≤ packages }
        requires high { packages ≤ VERTICES }
        ensures { IfOk result (λ order. order.words.shape.items ≡ packages) }
    {
        let (words, arcs, pass) = Arcs::open(alloc, packages)?;
        Ok(PackageOrder { words, arcs, pass })
    }

    /// How many packages there are.
    fn count(&self) -> u32
        ensures { result ≡ self.now.words.shape.items }
    {
        shape(&self.words).items
    }

    /// Adds a need of a package: the one that is needed stands first from then on.
    fn add(&mut self, alloc: Global, dependent: u32, needed: u32) -> Result<Added, DagFault>
        requires { (dependent < self.old.words.shape.items) × (needed < self.old.words.shape.items) }
        ensures words { self.new.words ≡ self.old.words }
        ensures added { IfOk result (IsAdded self.old.arcs self.new.arcs needed dependent) }
        ensures refused { IfErr result (IsRefused self.old.arcs needed dependent) }
    {
        self.arcs
            .add(alloc, &self.words, &mut self.pass, needed, dependent)
    }

    /// Whether a package stands before another. A number of no package stands before none.
    fn stands_before(&mut self, package: u32, other: u32) -> bool {
        if package >= self.count() || other >= self.count() {
            return false;
        }
        precedes(&self.words, &mut self.pass, package, other) == Answer::Before
    }

    /// Where a package has to go among some that are in order: behind those that stand before it.
    fn place_of(&mut self, order: &[u32], package: u32) -> usize
        ensures { result ≤ length order.now }
    {
        let mut low = 0;
        let mut high = order.len();
        while low < high {
            let middle = low + (high - low) / 2;
            if self.stands_before(order[middle], package) {
                low = middle + 1;
            } else {
                high = middle;
            }
        }
        low
    }

    /// All packages in their order.
    pub(crate) fn packages(&mut self, alloc: Global) -> Result<Vec<u32>, NoMemory> {
        let mut order = Vec::new(alloc);
        for package in 0..self.count() {
            let place = self.place_of(&order, package);
            order.insert(place, package)?;
        }
        Ok(order)
    }
}

/// Adds a refusal to others.
fn keep(refusals: &mut Vec<Refusal>, refusal: Refusal) -> Result<(), NoMemory>
    ensures { OnOk result (refusals.new.items ≡ refusals.old.items ++ refusal ∷ []) }
{
    refusals.push(refusal)?;
    Ok(())
}

/// Adds each need. Gives those that are refused for a cycle.
pub(crate) fn keep_all(
    alloc: Global,
    order: &mut PackageOrder,
    needs: &[(u32, u32)],
) -> Result<Vec<Refusal>, DagFault> {
    let mut refusals = Vec::new(alloc);
    for (package, needed) in needs {
        if *package >= order.count() || *needed >= order.count() {
            continue;
        }
        match order.add(alloc, *package, *needed) {
            Ok(_) => {}
            Err(DagFault::Cycle { walk }) => keep(&mut refusals, Refusal { walk })?,
            Err(fault) => return Err(fault),
        }
    }
    Ok(refusals)
}
