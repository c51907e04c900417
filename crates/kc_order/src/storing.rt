//! Storing the writes of a plain list, one by one, with the note right before the last of them.
ghost use Rattle.std.specs.Prelude.{◌≡◌, ◌<◌, ◌++◌, length};
ghost use Rattle.kc_words.specs.NoteWord.{IsFitting, note_word};
ghost use Rattle.kc_table.specs.Legal.{Legal};
ghost use Rattle.kc_order.specs.Writers.{AreLegal, log_of_all, stores_of};

use kc_list::Write;
use kc_table::{Words, WriterSeat, store};
use kc_words::NoteWord;

/// Stores writes one by one.
pub(crate) fn store_each(words: &Words, seat: &mut WriterSeat, writes: &[Write])
    requires table { seat.old.table ≡ words.now }
    requires legal { Legal seat.old.table.shape seat.old.table.opening (seat.old.log ++ stores_of writes.now) }
    ensures { seat.new ≡ record { table = seat.old.table; log = seat.old.log ++ stores_of writes.now } }
{
    for write in writes {
        store(words, seat, write.word(), write.value());
    }
}

/// Stores all writes but the last, then the note, and then the last write, at which the list changes.
pub(crate) fn store_writes(words: &Words, seat: &mut WriterSeat, writes: &[Write], note: NoteWord)
    requires table { seat.old.table ≡ words.now }
    requires some { 0 < length writes.now }
    requires fitting { IsFitting note }
    requires legal { AreLegal seat.old writes.now (note_word note) }
    ensures { seat.new ≡ record { table = seat.old.table; log = log_of_all seat.old.log writes.now (note_word note) } }
{
    let (front, end) = writes.split_at(writes.len() - 1);
    store_each(words, seat, front);
    store(words, seat, 0, note.pack());
    store_each(words, seat, end);
}
