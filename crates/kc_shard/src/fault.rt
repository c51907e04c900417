//! What is wrong with a shard.
ghost use Rattle.std.specs.Prelude.{◌≡◌, ◌<◌, ◌-◌, ◌^◌, length, nat_le};
ghost use Rattle.std.specs.List.{position};
ghost use Rattle.kc_shard.specs.Shards.{row_fault, rows_fault, offsets_fault, shard_fault};

/// What is wrong with a shard. Its offsets are looked at first, from the first one on, and then its entries.
#[derive(Clone, Copy, Debug, PartialEq, Eq)]
pub enum ShardFault {
    /// There is not one offset more than there are rows.
    WrongOffsetCount,
    /// The first offset is not 0.
    FirstNotZero,
    /// The offset at this place is less than the one before it.
    Descending(usize),
    /// The row at this place has 2^32 entries or more.
    LongRow(usize),
    /// The last offset is not the number of entries.
    WrongLastOffset,
    /// The entry at this place is no vertex.
    NotAVertex(usize),
}

/// What is wrong with a row that begins at the place `from` and ends before `to`.
fn row_fault(row: usize, from: u64, to: u64) -> Option<ShardFault>
    requires { row < 2 ^ 64 - 1 }
    ensures { result ≡ row_fault row from to }
{
    if to < from {
        Some(ShardFault::Descending(row + 1))
    } else if to - from > u32::MAX as u64 {
        Some(ShardFault::LongRow(row))
    } else {
        None
    }
}

/// The first fault of rows, where `ends` tells before which place each of them ends.
fn rows_fault(ends: &[u64]) -> Option<ShardFault>
    ensures { result ≡ rows_fault 0 0 ends.now }
{
    let mut from = 0;
    for (row, to) in ends.iter().enumerate() {
        if let Some(fault) = row_fault(row, from, *to) {
            return Some(fault);
        }
        from = *to;
    }
    None
}

/// The first fault of the offsets of so many rows with so many entries.
fn offsets_fault(rows: usize, offsets: &[u64], entries: usize) -> Option<ShardFault>
    requires { rows < 2 ^ 64 - 1 }
    ensures { result ≡ offsets_fault rows offsets.now entries }
{
    if offsets.len() != rows + 1 {
        return Some(ShardFault::WrongOffsetCount);
    }
    if offsets[0] != 0 {
        return Some(ShardFault::FirstNotZero);
    }
    if let Some(fault) = rows_fault(&offsets[1..]) {
        return Some(fault);
    }
    if offsets[rows] != entries as u64 {
        return Some(ShardFault::WrongLastOffset);
    }
    None
}

/// Where the first entry stands that is no vertex.
fn first_stranger(vertices: usize, neighbours: &[u32]) -> Option<usize>
    ensures { result ≡ position (λ w. nat_le vertices w) neighbours.now }
{
    neighbours.iter().position(|w| *w as usize >= vertices)
}

/// The first fault of a shard with so many rows, of a graph with so many vertices.
pub(crate) fn first_fault(
    rows: usize,
    vertices: usize,
    offsets: &[u64],
    neighbours: &[u32],
) -> Option<ShardFault>
    requires { rows < 2 ^ 64 - 1 }
    ensures { result ≡ shard_fault rows vertices offsets.now neighbours.now }
{
    if let Some(fault) = offsets_fault(rows, offsets, neighbours.len()) {
        return Some(fault);
    }
    match first_stranger(vertices, neighbours) {
        Some(place) => Some(ShardFault::NotAVertex(place)),
        None => None,
    }
}
