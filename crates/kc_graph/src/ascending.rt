//! Ascending lists of numbers, which a graph keeps for each vertex.
ghost use Rattle.std.specs.Prelude.{◌≡◌, ◌<◌, ◌-◌, ℕ, true, false, length, take, vec_len, vec_capacity};
ghost use Rattle.std.specs.List.Sorted.{IsStrictlyIncreasing};
ghost use Rattle.kc_lists.specs.Lists.{member};
ghost use Rattle.kc_graph.specs.Rows.{IsPlace, Inserted, Deleted};

/// Where a number stands in an ascending list, or else where it has to go. One that is greater than the last costs one comparison.
pub(crate) fn place_in(row: &[u32], w: u32) -> Result<usize, usize>
    requires { IsStrictlyIncreasing row.now }
    ensures { IsPlace row.now w result }
{
    match row.last() {
        Some(last) if *last < w => Err(row.len()),
        _ => row.binary_search(&w),
    }
}

/// Puts a number into an ascending list that lacks it and has room for it.
pub(crate) fn insert_into(row: &mut Vec<u32>, w: u32)
    requires ascends { IsStrictlyIncreasing row.old.items }
    requires lacks { member w row.old.items ≡ false }
    requires room { vec_len row.old < vec_capacity row.old }
    ensures { Inserted row.old.items row.new.items w }
{
    if let Err(place) = place_in(row, w) {
        let _inserted = row.insert(place, w);
    }
}

/// Takes a number out of an ascending list that has it.
pub(crate) fn delete_from(row: &mut Vec<u32>, w: u32)
    requires ascends { IsStrictlyIncreasing row.old.items }
    requires here { member w row.old.items ≡ true }
    ensures { Deleted row.old.items row.new.items w }
{
    if let Ok(place) = place_in(row, w) {
        row.remove(place);
    }
}

/// Takes a number out of an ascending list that has it, where the list can't get shorter: the others come first, and ascend.
pub(crate) fn delete_within(row: &mut [u32], w: u32)
    requires ascends { IsStrictlyIncreasing row.old }
    requires here { member w row.old ≡ true }
    ensures others { Deleted row.old (take (length row.old - 1) row.new) w }
    ensures len { length row.new ≡ length row.old }
{
    if let Ok(place) = place_in(row, w) {
        row[place..].rotate_left(1);
    }
}
