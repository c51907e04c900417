//! Where a group is split.
ghost use Rattle.std.specs.Prelude.{◌<◌, ◌≤◌, length};
ghost use Rattle.kc_list.specs.declared.limits.TheConstants.{GROUP_ITEMS};

/// A group, a number that is free, and the group's members: those that stay, and those above them that
/// get the free number.
#[derive(Clone, Copy, Drop)]
pub struct Cut<'a> {
    pub group: u32,
    pub fresh: u32,
    pub low: &'a [u32],
    pub ups: &'a [u32],
    ghost some_low: { 0 < length low.now },
    ghost few: { length ups.now ≤ GROUP_ITEMS },
}
