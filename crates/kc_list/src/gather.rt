//! The members of a group.
ghost use Rattle.std.specs.Prelude.{◌≡◌, ◌≤◌, ◌+◌, length, take, true};
ghost use Rattle.kc_lists.specs.Lists.{member};
ghost use Rattle.kc_list.specs.Views.{group_at, group_size, AreMembers, IsFirst};

use crate::labelled::LabelledList;

impl LabelledList {
    /// The first item of the group of `p`.
    fn first_of(&self, p: u32) -> u32
        requires { member p self.now.links.list ≡ true }
        ensures { IsFirst self.now.links self.now.sheet (group_at self.now.links self.now.sheet p) result }
    {
        let group = self.item(p).group;
        let mut first = p;
        let mut before = self.links.prev(first);
        while before != self.links.size() && self.item(before).group == group {
            first = before;
            before = self.links.prev(first);
        }
        first
    }

    /// All items of a group, from its first on.
    fn collect_from(&self, group: u32, first: u32, into: &mut [u32]) -> usize
        requires first { IsFirst self.now.links self.now.sheet group first }
        requires room { group_size self.now.links self.now.sheet group ≤ length into.old }
        ensures segment { AreMembers self.now.links self.now.sheet group (take result into.new) }
        ensures within { result ≤ length into.old }
    {
        let mut count = 0;
        let mut x = first;
        while x != self.links.size() && self.item(x).group == group {
            into[count] = x;
            count += 1;
            x = self.links.next(x);
        }
        count
    }

    /// The members of the group of `p`, in order.
    pub fn gather(&self, p: u32, into: &mut [u32]) -> usize
        requires p_in { member p self.now.links.list ≡ true }
        requires room { group_size self.now.links self.now.sheet (group_at self.now.links self.now.sheet p) ≤ length into.old }
        ensures segment { AreMembers self.now.links self.now.sheet (group_at self.now.links self.now.sheet p) (take result into.new) }
        ensures within { result ≤ length into.old }
    {
        let group = self.item(p).group;
        let first = self.first_of(p);
        self.collect_from(group, first, into)
    }
}
