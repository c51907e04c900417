//! The rule of the words, and what each step of a seat tells.
//!
//! All that is known of the words by all seats is `OneWriter`. Each other type names a step and what its seat knows after it.
use crate::view::{Knowledge, Opening};
use atomic_table::{Join, Play, Split, TableRule};

/// The words are those that the log leaves, the log is legal, the one writer has seen all of it, and each pass a prefix.
pub struct OneWriter;

impl TableRule<u8, Knowledge, Opening> for OneWriter {
    ghost use Rattle.kc_table.specs.Rule.{KeepsTable, first_view};

    ghost holds = { λ k. KeepsTable k };

    ghost first = { first_view };
}

/// A load: what was seen grows, or stays, and the seat has made a load more.
pub(crate) struct Look;

impl Play<u8, Knowledge> for Look {
    ghost use Rattle.kc_table.specs.Rule.{TellsLoad};

    ghost then = { TellsLoad };
}

/// A store: the log grows by it.
pub(crate) struct Put;

impl Play<u8, Knowledge> for Put {
    ghost use Rattle.kc_table.specs.Rule.{TellsStore};

    ghost then = { TellsStore };
}

/// A split: the new seat is a pass that has seen as much and has made no step, and the old one has made a split more.
pub(crate) struct Fork;

impl Split<Knowledge> for Fork {
    ghost use Rattle.kc_table.specs.Rule.{parted, pass_of};

    ghost left = { parted };

    ghost right = { pass_of };
}

/// A join: the one keeps what the other has seen beside its own until its next load, and has made the steps of both.
pub(crate) struct Told;

impl Join<Knowledge> for Told {
    ghost use Rattle.kc_table.specs.Rule.{told, nobody};

    ghost both = { told };

    ghost spent = { nobody };
}
