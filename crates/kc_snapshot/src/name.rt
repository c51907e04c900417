//! What a type parameter stands for: one board.
use std::marker::Brand;

/// Names one board.
///
/// Of a list that a reader finds, only its type is known. So such a type has a parameter `J: BoardName`, and its history is that of the
/// board that J names. A call with `Brand` for J picks the board from the `Blank` that it is handed.
pub trait BoardName {
    ghost use Rattle.logbook.specs.Pages.{Book};

    ghost book: { Book };
}

impl BoardName for Brand {
    ghost use Rattle.kc_snapshot.specs.Rules.{no_book};

    ghost book = { no_book };
}
