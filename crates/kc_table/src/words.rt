//! The words of a table.
use crate::rule::OneWriter;
use crate::view::{Knowledge, Opening};
use atomic_table::Table;
use kc_words::Shape;
use std::alloc::Global;
use std::marker::Model;

/// The words of a table. Contracts see which table it is, its shape and its opening words.
#[derive(Drop)]
pub struct Words {
    pub(crate) shape: Shape,
    pub(crate) table: Table<u8, Knowledge, Opening, OneWriter, Global>,
}

impl Model for Words {
    ghost use Rattle.std.specs.Prelude.{◌≡◌, length};
    ghost use Rattle.kc_table.specs.Log.{TableName};
    ghost use Rattle.kc_table.specs.Legal.{IsTableOpening};

    ghost Value = { TableName };

    ghost view = { λ w. record { id = w.table.shared.table_id; shape = w.table.shared.key.shape; opening = w.table.shared.key.words.items } };

    ghost invariant = { λ w. (w.shape ≡ w.table.shared.key.shape) × (w.table.shared.table_id.words ≡ length w.table.shared.key.words.items)
        × IsTableOpening w.shape w.table.shared.key.words.items };
}
