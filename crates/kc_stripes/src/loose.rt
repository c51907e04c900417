//! A view over stripes and words, while others change them.
ghost use Rattle.std.specs.Prelude.{◌≡◌, IfErr};
ghost use mathlib.Core.List.{IsPrefix};
ghost use Rattle.kc_view.specs.Answers.{nothing_answered};
ghost use Rattle.kc_view.specs.Views.{GoesOn, HasViewCause};
ghost use Rattle.kc_stripes.specs.Reads.{shown_loosely};

use crate::start::Moment;
use crate::stripes::Stripes;
use kc_agree::{read_again, read_core, read_order};
use kc_graph::{Used, UsedEdges};
use kc_table::{Name, Pass, Words};
use kc_view::{Memo, Scratch, View, ViewFault};
use std::alloc::Global;
use std::marker::{Model, PhantomData};
use std::sync::Wait;

/// From so many core numbers on a view looks back, whether each is still what it was read as.
const LONG_PLAN: usize = 1024;

/// A view looks back at one core number in so many calls for a list that it has kept.
const LOOK_BACK_EVERY: u32 = 4;

/// A view of K's table that reads while others change it. It owns its pass, which a caller split from its own, and hands it back.
///
/// All that it has answered was read of what its pass has seen: each list is not older than the opening, and each stamp and core number
/// was so at some moment not before `S`. The answers need not be those of one state. A miss is true from `S` to what the pass has seen. An
/// order misses, and so does a list that was kept, where the view has looked back: of `LONG_PLAN` core numbers and more it loads one again
/// now and then, in the order of asking, so that a long plan which others have overtaken ends long before it is whole.
///
/// What was kept is found by the marks of a `Scratch`, which a worker lends it. So making it, and ending it, costs nothing of the size of
/// the graph.
#[derive(Drop)]
pub struct Loose<'a, K: Name, S: Moment, R: Wait> {
    rt: &'a R,
    words: &'a Words,
    stripes: &'a Stripes<K>,
    pass: Pass,
    memo: Memo,
    handed: u64,
    misses: u64,
    /// How many calls have asked for a list that was kept. It matters for speed alone.
    repeats: u32,
    /// The place, in the order of asking, of the core number that is looked back at next.
    back: usize,
    of: PhantomData<S>,
}

impl<'a, K: Name, S: Moment, R: Wait> Model for Loose<'a, K, S, R> {
    ghost use Rattle.std.specs.Prelude.{◌≡◌};
    ghost use Rattle.kc_stripes.specs.Reads.{Loosely, loosely};
    ghost use Rattle.kc_stripes.specs.ReadsCode.{code_of_loosely};
    ghost use Rattle.kc_stripes.specs.Loose.{IsLoose};

    ghost Value = { Loosely };

    ghost coded = { code_of_loosely };

    ghost view = { λ l. loosely l.memo l.handed l.misses l.pass.log };

    ghost invariant = { λ l. (l.words.now ≡ K.opened.table) × (l.pass.table ≡ K.opened.table)
        × IsLoose K.opened S.log (loosely l.memo l.handed l.misses l.pass.log) };
}

impl<'a, K: Name, S: Moment, R: Wait> Loose<'a, K, S, R> {
    /// A view with nothing kept. The pass is one that a caller split from its own, and has seen `S`.
    pub fn new(
        rt: &'a R,
        alloc: Global,
        words: &'a Words,
        stripes: &'a Stripes<K>,
        pass: Pass,
        scratch: Scratch,
    ) -> Loose<'a, K, S, R>
        requires table { (words.now ≡ K.opened.table) × (pass.table ≡ K.opened.table) }
        requires start { IsPrefix S.log pass.log }
        requires scratch { scratch ≡ K.opened.table.shape.fixed }
        ensures { result ≡ record { size = K.opened.table.shape.fixed; kept = nothing_answered; handed = 0; misses = 0; seen = pass.log } }
    {
        Loose {
            rt,
            words,
            stripes,
            pass,
            memo: Memo::new(alloc, scratch),
            handed: 0,
            misses: 0,
            repeats: 0,
            back: 0,
            of: PhantomData,
        }
    }

    /// The pass, and the scratch as it was lent.
    pub fn end(self) -> (Pass, Scratch)
        ensures table { result.0.table ≡ K.opened.table }
        ensures log { result.0.log ≡ self.entry.seen }
        ensures scratch { result.1 ≡ K.opened.table.shape.fixed }
        ensures start { IsPrefix S.log self.entry.seen }
    {
        let Loose { pass, memo, .. } = self;
        (pass, memo.into_scratch())
    }

    /// Looks now and then, where many core numbers were read, whether the next of them is still what it was read as.
    fn look_back(&mut self) -> Result<(), ViewFault>
        ensures kept { self.new.kept ≡ self.old.kept }
        ensures goes_on { GoesOn (shown_loosely K.opened S.log self.old)
            (shown_loosely K.opened S.log self.new) }
        ensures cause { IfErr result (λ fault. HasViewCause (shown_loosely K.opened S.log self.old)
            (shown_loosely K.opened S.log self.new) fault) }
    {
        self.repeats = self.repeats.wrapping_add(1);
        if self.repeats % LOOK_BACK_EVERY != 0 || self.memo.place(LONG_PLAN).is_none() {
            return Ok(());
        }
        let Some(place) = self.memo.place(self.back) else {
            self.back = 0;
            return Ok(());
        };
        self.back = self.back.saturating_add(1);
        let Err(again) = read_again(self.words, &mut self.pass, place) else {
            return Ok(());
        };
        self.misses = self.misses.saturating_add(1);
        Err(ViewFault::Miss(again))
    }
}

impl<K: Name, S: Moment, R: Wait> View for Loose<'_, K, S, R> {
    ghost use Rattle.kc_stripes.specs.Reads.{shown_loosely};

    ghost shown = { λ l. shown_loosely K.opened S.log l };

    fn degree(&mut self, w: u32) -> Result<u32, ViewFault> {
        if let Some(list) = self.memo.list(w) {
            let length = list.as_slice().len() as u32;
            self.look_back()?;
            return Ok(length);
        }
        let (neighbours, at) = self.stripes.read(self.rt, self.words, &mut self.pass, w)?;
        let degree = neighbours.as_slice().len() as u32;
        self.memo.keep_list(UsedEdges {
            vertex: w,
            at,
            neighbours,
        })?;
        Ok(degree)
    }

    fn list(&self, w: u32) -> &[u32] {
        match self.memo.list(w) {
            Some(list) => list.as_slice(),
            None => unreachable!(),
        }
    }

    fn core(&mut self, w: u32) -> Result<u32, ViewFault> {
        if let Some(core) = self.memo.core(w) {
            return Ok(core);
        }
        Ok(read_core(self.words, &mut self.pass, &mut self.memo, w)?)
    }

    fn precedes(&mut self, x: u32, y: u32) -> Result<bool, ViewFault> {
        match read_order(self.words, &mut self.pass, &mut self.memo, x, y) {
            Ok(before) => Ok(before),
            Err(ViewFault::Miss(again)) => {
                self.misses = self.misses.saturating_add(1);
                Err(ViewFault::Miss(again))
            }
            Err(ViewFault::NoMemory) => Err(ViewFault::NoMemory),
        }
    }

    fn used(&mut self) -> Used {
        self.handed = self.handed.wrapping_add(1);
        self.memo.hand_out()
    }
}
