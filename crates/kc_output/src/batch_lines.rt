//! The lines about batches.
ghost use Rattle.std.specs.Prelude.{◌≡◌, ◌≤◌, ◌<◌, ◌+◌, ◌++◌, ◌∷◌, [], List, IfOk, OnOk, length, map};
ghost use Rattle.kc_graph.specs.declared.update.Update.{Update};
ghost use Rattle.kc_batch_effects.specs.Batches.{graph_after_batch};
ghost use Rattle.kc_text.specs.Inputs.{IsBatch, parts_of, parts_of_batch};
ghost use Rattle.kc_text.specs.declared.limits.TheConstants.{MOST_UPDATES};
ghost use Rattle.kc_words.specs.declared.layout.TheConstants.{INDICES};
ghost use Rattle.kc_batch.specs.Batches.{receipts_in};
ghost use Rattle.kc_run.specs.Courses.{HasWorked};
ghost use Rattle.kc_snapshot.specs.declared.publisher.TheConstants.{MOST_LISTS};
ghost use Rattle.kc_output.specs.Inputs.{IsSound, updates_of};
ghost use Rattle.kc_output.specs.Screens.{HasShown};
ghost use Rattle.kc_output.specs.Text.{TellsBatches, line_about, shown_each};

use crate::numbers::put_each;
use crate::screen::Screen;
use crate::setting::Setting;
use kc_graph::NoMemory;
use kc_report::{Line, summary};
use kc_run::{Course, Ran};
use kc_snapshot::BoardName;
use kc_text::{Batch, Input};
use kc_workers::Gate;
use std::alloc::Global;
use std::sync::Wait;
use std::thread::Threads;

/// What all batches of a run are worked with, and what the run is asked for.
#[derive(Drop)]
pub(crate) struct Work<'a, G, R> {
    pub(crate) rt: &'a R,
    pub(crate) alloc: Global,
    pub(crate) gate: &'a G,
    pub(crate) setting: Setting,
}

impl<G: Gate + Sync, R: Threads + Wait + Sync> Work<'_, G, R> {
    /// Lets the workers enter a batch, and appends its line.
    fn put_batch(
        &self,
        number: u32,
        course: Course,
        batch: &Batch,
        text: &mut Vec<u8>,
        ran: &mut Ran,
    ) -> Result<Course, NoMemory>
        requires batch { IsBatch course.journal.graph.size batch.now.updates.items }
        requires few { length batch.now.updates.items ≤ MOST_UPDATES }
        requires indices { length course.journal.entries + length batch.now.updates.items ≤ INDICES }
        ensures graph { IfOk result (λ new. new.journal.graph ≡ graph_after_batch course.journal.graph (map parts_of batch.now.updates.items)) }
        ensures started { IfOk result (λ new. new.journal.started ≡ course.journal.started) }
        ensures entries { IfOk result (λ new. length new.journal.entries ≡ length course.journal.entries + length batch.now.updates.items) }
        ensures text { IfOk result (λ new. text.new.items ≡ text.old.items
            ++ line_about number course.journal.graph (parts_of_batch batch.now) new.journal.levels.core) }
        ensures worked { IfOk result (λ new. (batches : List (List Update))
            → HasWorked batches ran.old.tables.items (receipts_in ran.old.shares.items) course.journal
            → HasWorked (batches ++ batch.now.updates.items ∷ []) ran.new.tables.items (receipts_in ran.new.shares.items) new.journal) }
    {
        let (course, counts) = course.work(self.rt, self.alloc, &batch.updates, self.gate, ran);
        let Ok(counts) = counts else {
            return Err(NoMemory);
        };
        let line = Line::Batch {
            number,
            added: counts.added,
            removed: counts.removed,
            kept: counts.kept,
            overruled: batch.overruled,
            edges: course.edges(),
            top: course.top(),
        };
        summary(text, &line)?;
        Ok(course)
    }

    /// Appends what is shown of the core numbers after the batch with this number. Where there is a screen they are published there, and
    /// they are what its reader reads.
    fn put_shown<'s, J: BoardName>(
        &self,
        number: u32,
        screen: Option<Screen<'s, J, R>>,
        ids: &[u32],
        core: &[u32],
        text: &mut Vec<u8>,
    ) -> Result<Option<Screen<'s, J, R>>, NoMemory>
        requires one_each { length ids.now ≡ length core.now }
        requires shown { HasShown (length core.now) number screen }
        requires room { number < MOST_LISTS }
        ensures text { OnOk result (text.new.items ≡ text.old.items ++ shown_each self.now.setting.show ids.now core.now) }
        ensures shown { IfOk result (λ after. HasShown (length core.now) (number + 1) after) }
    {
        let Some(mut screen) = screen else {
            put_each(text, self.setting.show, ids, core)?;
            return Ok(None);
        };
        screen.show(core)?;
        put_each(text, self.setting.show, ids, screen.core())?;
        Ok(Some(screen))
    }

    /// Lets the workers enter the batches in turn, and appends a line for each, with the core numbers after it where each state is shown.
    pub(crate) fn put_batches<J: BoardName>(
        &self,
        mut course: Course,
        input: &Input,
        mut screen: Option<Screen<'_, J, R>>,
        text: &mut Vec<u8>,
        ran: &mut Ran,
    ) -> Result<Course, NoMemory>
        requires sound { IsSound input.now }
        requires size { length input.now.ids.items ≡ course.journal.graph.size }
        requires begun { course.journal.entries ≡ [] }
        requires shown { HasShown course.journal.graph.size 1 screen }
        ensures text { IfOk result (λ new. TellsBatches (shown_each self.now.setting.show input.now.ids.items) 1 course.journal.graph
            course.journal.levels.core (map parts_of_batch input.now.batches.items) text.old.items text.new.items new.journal.levels.core) }
        ensures started { IfOk result (λ new. new.journal.started ≡ course.journal.started) }
        ensures size { IfOk result (λ new. new.journal.graph.size ≡ course.journal.graph.size) }
        ensures worked { IfOk result (λ new. HasWorked [] ran.old.tables.items (receipts_in ran.old.shares.items) course.journal
            → HasWorked (updates_of input.now.batches.items) ran.new.tables.items (receipts_in ran.new.shares.items) new.journal) }
    {
        let mut number = 0;
        for batch in &input.batches {
            number += 1;
            course = self.put_batch(number, course, batch, text, ran)?;
            screen = self.put_shown(number, screen, &input.ids, course.core_numbers(), text)?;
        }
        Ok(course)
    }
}
