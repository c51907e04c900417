//! Ids among the first ones, which have core numbers.
ghost use Rattle.std.specs.Prelude.{◌≡◌, ◌<◌, IfSome, take};
ghost use Rattle.kc_stream.specs.Ids.{number_of};

use kc_stream::Ids;

/// The number that stands for an id, where it is one of so many first ones.
pub(crate) fn known_number(ids: &Ids, known: usize, id: u32) -> Option<u32>
    ensures number { result ≡ number_of (take known ids.now) id }
    ensures within { IfSome result (λ number. number < known) }
{
    match ids.number(id) {
        Some(number) => {
            if (number as usize) < known {
                Some(number)
            } else {
                None
            }
        },
        None => None,
    }
}
