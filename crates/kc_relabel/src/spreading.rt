//! Labels at even distances.
ghost use Rattle.std.specs.Prelude.{◌≡◌, ◌<◌, ◌+◌, ◌*◌, ◌/◌};

/// The label of the item at a place, counted from 0, where `count` items share the labels between 0
/// and `room`: they stand at even distances from one another, from 0 and from `room`.
pub fn spread(count: u32, room: u64, place: u32) -> u64
    requires place_in { place < count }
    requires room { count < room }
    ensures { result ≡ (place + 1) * (room / (count + 1)) }
{
    (u64::from(place) + 1) * (room / (u64::from(count) + 1))
}
