//! What a type parameter stands for: one queue.
use std::marker::Brand;

/// Names one queue.
///
/// Of a worker that a thread is handed, only its type is known. So such a type has a parameter `K: Queued`, and its consumer is one of the
/// queue that K names. A call with `Brand` for K picks the queue from the parts that it is handed.
pub trait Queued {
    ghost use Rattle.kc_queue.specs.Shares.{FilledQueue};

    ghost queue: { FilledQueue };
}

impl Queued for Brand {
    ghost use Rattle.kc_queue.specs.Shares.{no_queue};

    ghost queue = { no_queue };
}
