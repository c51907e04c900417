//! All stripes of a table, each under a lock.
ghost use Rattle.std.specs.Prelude.{◌≡◌, ◌≤◌, ◌<◌, ◌+◌, ℕ, true, false, slice_index, vec_len, All, IfOk, OnOk, IfErr, OnErr};
ghost use mathlib.Core.List.{IsPrefix};
ghost use Rattle.kc_view.specs.Lists.{IsListOf};
ghost use Rattle.kc_agree.specs.Reads.{WasList};
ghost use Rattle.kc_stripes.specs.Records.{belongs, with_newer};
ghost use Rattle.kc_stripes.specs.declared.stripe.TheConstants.{STRIPES};

use crate::stripe::{STRIPES, Stripe};
use kc_graph::{Neighbours, NoMemory, UsedEdges};
use kc_table::{Name, Pass, Words};
use std::alloc::Global;
use std::marker::{Model, PhantomData};
use std::sync::{Mutex, Wait};

/// The value behind one lock: a stripe of K's table, with K's opening edges and edge stamps.
#[derive(Drop)]
struct LockedStripe<K: Name> {
    stripe: Stripe,
    of: PhantomData<K>,
}

impl<K: Name> Model for LockedStripe<K> {
    ghost use Rattle.std.specs.Prelude.{◌≡◌};
    ghost use Rattle.std.specs.Coded.{codes};
    ghost use Rattle.kc_graph.specs.Rows.{code_of_graph};
    ghost use Rattle.kc_stripes.specs.Records.{Striped};

    ghost Value = { Striped };

    ghost coded = { Prim.hlevel (codes, code_of_graph) };

    ghost view = { λ k. k.stripe };

    ghost invariant = { λ k. k.stripe.opened ≡ K.opened };
}

impl<K: Name> LockedStripe<K> {
    /// The stripe, as one of K's.
    fn new(stripe: Stripe) -> LockedStripe<K>
        requires { stripe.opened ≡ K.opened }
    {
        LockedStripe {
            stripe,
            of: PhantomData,
        }
    }

    /// The stripe again.
    fn into_stripe(self) -> Stripe
        ensures { result.opened ≡ K.opened }
    {
        let LockedStripe { stripe, .. } = self;
        stripe
    }

    /// The list of a vertex, where it belongs to this stripe.
    fn read(
        &mut self,
        words: &Words,
        pass: &mut Pass,
        w: u32,
    ) -> Result<(Neighbours, u32), NoMemory>
        requires table { (words.now ≡ K.opened.table) × (pass.old.table ≡ K.opened.table) }
        ensures table { pass.new.table ≡ K.opened.table }
        ensures longer { IsPrefix pass.old.log pass.new.log }
        ensures was { IfOk result (λ r. WasList K.opened.table K.opened.edges pass.new.log (record { vertex = w; at = r.1; neighbours = r.0 })) }
        ensures newer { IfOk result (λ r. slice_index K.opened.stamps w ≤ r.1) }
        ensures others { IfOk result (λ r. IsListOf K.opened.table.shape.fixed w r.0) }
    {
        if !self.stripe.has(w) {
            return Err(NoMemory);
        }
        self.stripe.hand_out(words, pass, w)
    }

    /// Puts a list of a vertex. `NoMemory` where it doesn't belong to this stripe, which then stays as it is.
    fn publish(&mut self, words: &Words, pass: &mut Pass, list: UsedEdges) -> Result<(), NoMemory>
        requires table { (words.now ≡ K.opened.table) × (pass.old.table ≡ K.opened.table) }
        requires was { WasList K.opened.table K.opened.edges pass.old.log list }
        ensures table { pass.new.table ≡ pass.old.table }
        ensures log { pass.new.log ≡ pass.old.log }
        ensures ok { OnOk result (belongs self.old list.vertex ≡ true) }
        ensures put { OnOk result (self.new.records ≡ with_newer self.old.records list) }
        ensures lacks { OnErr result (belongs self.old list.vertex ≡ false) }
        ensures same { OnErr result (self.new ≡ self.old) }
    {
        let UsedEdges {
            vertex,
            at,
            neighbours,
        } = list;
        if !self.stripe.has(vertex) {
            return Err(NoMemory);
        }
        self.stripe.put(words, pass, vertex, neighbours, at);
        Ok(())
    }
}

/// Memory for as many stripes as there are, so that they can be given back without asking for any. Its lock is never taken: a stripe has a
/// pass, so that two threads may hold a list of stripes only behind a lock.
#[derive(Drop)]
struct Room {
    stripes: Vec<Stripe>,
    ghost none: { vec_len stripes ≡ 0 },
    ghost enough: { STRIPES ≤ stripes.cap },
}

/// The stripes of K's table, each under a lock.
///
/// A vertex's stripe is found by its number. What stands behind a lock is known by its type alone, so each call asks the stripe whether
/// the vertex belongs to it.
#[derive(Drop)]
pub struct Stripes<K: Name> {
    locks: Vec<Mutex<LockedStripe<K>>>,
    room: Mutex<Room>,
    ghost all: { vec_len locks ≡ STRIPES },
}

impl<K: Name> Stripes<K> {
    /// A lock round each stripe. The error is want of memory, and gives the stripes back.
    pub fn new(alloc: Global, stripes: Vec<Stripe>) -> Result<Stripes<K>, Vec<Stripe>>
        requires count { vec_len stripes ≡ STRIPES }
        requires opened { All (λ s. s.opened ≡ K.opened) stripes.items }
        ensures { IfErr result (λ back. back ≡ stripes) }
    {
        let Ok(mut locks) = Vec::with_capacity(alloc, STRIPES as usize) else {
            return Err(stripes);
        };
        let mut stripes = stripes;
        for stripe in stripes.drain(..) {
            locks.push_reserved(Mutex::new(LockedStripe::new(stripe)));
        }
        Ok(Stripes {
            locks,
            room: Mutex::new(Room { stripes }),
        })
    }

    /// The stripes again. It takes no lock and no memory. Each lock gives its stripe back at the place where `new` found it; no clause says so,
    /// since what a lock hides is known by its type alone.
    pub fn into_stripes(self) -> Vec<Stripe>
        ensures count { vec_len result ≡ STRIPES }
        ensures opened { All (λ s. s.opened ≡ K.opened) result.items }
    {
        let Stripes { locks, room } = self;
        let Room { mut stripes } = room.into_inner();
        for lock in locks {
            stripes.push_reserved(lock.into_inner().into_stripe());
        }
        stripes
    }

    /// The list of a vertex, ascending and without it, and after how many entries it was so: the pass has then seen these. It is not older
    /// than the opening. It takes the lock of the vertex's stripe, and shares the list. `NoMemory` comes where no more holders can be
    /// counted; where that stripe lacks the vertex it would come too, but no row of `open_stripes` is such.
    pub fn read<R: Wait>(
        &self,
        rt: &R,
        words: &Words,
        pass: &mut Pass,
        w: u32,
    ) -> Result<(Neighbours, u32), NoMemory>
        requires table { (words.now ≡ K.opened.table) × (pass.old.table ≡ K.opened.table) }
        ensures table { pass.new.table ≡ K.opened.table }
        ensures longer { IsPrefix pass.old.log pass.new.log }
        ensures was { IfOk result (λ r. WasList K.opened.table K.opened.edges pass.new.log (record { vertex = w; at = r.1; neighbours = r.0 })) }
        ensures newer { IfOk result (λ r. slice_index K.opened.stamps w ≤ r.1) }
        ensures others { IfOk result (λ r. IsListOf K.opened.table.shape.fixed w r.0) }
    {
        self.locks[place_of(w)].lock(rt).read(words, pass, w)
    }

    /// Puts a list in its vertex's place, where it is of a later entry. It takes the lock of the vertex's stripe, and no memory. `NoMemory`
    /// comes where the stripe under that lock lacks the vertex, and nothing is put then: no row of `open_stripes` is such.
    ///
    /// Its clauses ask that the list is true, and say that the pass stays. That a list is put is no clause of it: what a lock hides is known by
    /// its type alone. It is one of the step that is made under the lock.
    pub fn publish<R: Wait>(
        &self,
        rt: &R,
        words: &Words,
        pass: &mut Pass,
        list: UsedEdges,
    ) -> Result<(), NoMemory>
        requires table { (words.now ≡ K.opened.table) × (pass.old.table ≡ K.opened.table) }
        requires was { WasList K.opened.table K.opened.edges pass.old.log list }
        ensures table { pass.new.table ≡ pass.old.table }
        ensures log { pass.new.log ≡ pass.old.log }
    {
        self.locks[place_of(list.vertex)]
            .lock(rt)
            .publish(words, pass, list)
    }
}

/// Where the lock of a vertex's stripe stands.
fn place_of(w: u32) -> usize
    ensures { result < STRIPES }
{
    (w % STRIPES) as usize
}
