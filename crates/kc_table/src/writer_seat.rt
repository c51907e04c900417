//! The writer's right to store.
use crate::view::Knowledge;
use atomic_table::Seat;
use std::marker::Model;

/// The right to store, of which a table has one. Contracts see its table and the whole log.
#[derive(Drop)]
pub struct WriterSeat {
    pub(crate) seat: Seat<u8, Knowledge>,
}

impl Model for WriterSeat {
    ghost use Rattle.std.specs.Prelude.{◌≡◌, [], true, false};
    ghost use Rattle.kc_table.specs.Log.{Seen};

    ghost Value = { Seen };

    ghost view = { λ p. record { table = record { id = p.seat.table_id; shape = p.seat.me.0.shape; opening = p.seat.me.0.opening }; log = p.seat.me.0.seen } };

    ghost invariant = { λ p. (p.seat.me.1 ≡ []) × (p.seat.me.0.spent ≡ false) × (p.seat.me.0.writes ≡ true) × (p.seat.me.0.kept ≡ []) };
}
