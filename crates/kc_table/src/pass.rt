//! What a thread has seen of a table, and the steps that it has made there.
use crate::view::Knowledge;
use atomic_table::Seat;
use std::marker::Model;

/// The right to load. Contracts see its table, the prefix of the log that it has seen, and how many loads and splits it has made. It has
/// no bytes, and the counts exist in the proofs alone.
///
/// No call makes what a pass has seen shorter. What one pass has seen reaches another by `meet`, or where it is told the log.
#[derive(Drop)]
pub struct Pass {
    pub(crate) seat: Seat<u8, Knowledge>,
}

impl Model for Pass {
    ghost use Rattle.std.specs.Prelude.{◌≡◌, [], false};
    ghost use Rattle.kc_table.specs.Log.{PassSeen};

    ghost Value = { PassSeen };

    ghost view = { λ p. record {
      table = record { id = p.seat.table_id; shape = p.seat.me.0.shape; opening = p.seat.me.0.opening };
      log = p.seat.me.0.seen;
      loads = p.seat.me.0.loads;
      splits = p.seat.me.0.splits;
    } };

    ghost invariant = { λ p. (p.seat.me.1 ≡ []) × (p.seat.me.0.spent ≡ false) × (p.seat.me.0.writes ≡ false)
        × (p.seat.me.0.kept ≡ []) };
}
