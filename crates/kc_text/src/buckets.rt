//! Finds the number that stands for an id. The ids are parted into ranges of equal width, so that one is looked for among few.
ghost use Rattle.std.specs.Prelude.{◌≡◌, ◌<◌, ◌≤◌, ◌*◌, ◌^◌, All, true, length, nat_eq, IfOk};
ghost use Rattle.std.specs.List.Sorted.{IsStrictlyIncreasing};
ghost use Rattle.std.specs.Set.{is_member};
ghost use Rattle.kc_text.specs.Buckets.{AreBuckets, IsBegin, IsRangeOf};
ghost use Rattle.kc_text.specs.Inputs.{place};

use crate::NoMemory;
use std::alloc::Global;

/// As many ranges of equal width as there are ids, so that an id is looked for among few.
#[derive(Drop)]
pub(crate) struct Buckets {
    width: u64,
    /// How many ids stand before each range, and how many there are.
    begins: Vec<u32>,
}

/// A width so that as many ranges as there are ids reach beyond the greatest id.
fn range_width(ids: &[u32]) -> u64
    requires { IsStrictlyIncreasing ids.now }
    ensures some { 0 < result }
    ensures most { result ≤ 2 ^ 32 }
    ensures reach { All (λ id. id < length ids.now * result) ids.now }
{
    match ids.last() {
        Some(greatest) => u64::from(*greatest) / ids.len() as u64 + 1,
        None => 1,
    }
}

/// How many ids are below a bound.
fn count_below(ids: &[u32], bound: u64) -> usize
    requires { IsStrictlyIncreasing ids.now }
    ensures { IsBegin ids.now bound result }
{
    ids.partition_point(|id| u64::from(*id) < bound)
}

impl Buckets {
    pub(crate) fn new(alloc: Global, ids: &[u32]) -> Result<Buckets, NoMemory>
        requires ascending { IsStrictlyIncreasing ids.now }
        requires few { length ids.now < 2 ^ 32 }
        ensures { IfOk result (λ buckets. AreBuckets ids.now buckets.width buckets.begins.items) }
    {
        let width = range_width(ids);
        let mut begins = Vec::with_capacity(alloc, ids.len() + 1)?;
        for k in 0..ids.len() + 1 {
            begins.push(count_below(ids, k as u64 * width) as u32)?;
        }
        Ok(Buckets { width, begins })
    }

    /// How many ids stand before the range of an id, and the ids of that range.
    fn range<'a>(&self, ids: &'a [u32], id: u32) -> (usize, &'a [u32])
        requires buckets { AreBuckets ids.now self.now.width self.now.begins.items }
        requires there { is_member nat_eq ids.now id ≡ true }
        ensures { IsRangeOf ids.now id result.0 result.1.now }
    {
        let begins = self.begins.as_slice();
        let k = (u64::from(id) / self.width) as usize;
        let (low, high) = (begins[k] as usize, begins[k + 1] as usize);
        let (_, rest) = ids.split_at(low);
        let (range, _) = rest.split_at(high - low);
        (low, range)
    }

    /// The number that stands for an id.
    pub(crate) fn place(&self, ids: &[u32], id: u32) -> u32
        requires buckets { AreBuckets ids.now self.now.width self.now.begins.items }
        requires ascending { IsStrictlyIncreasing ids.now }
        requires there { is_member nat_eq ids.now id ≡ true }
        requires few { length ids.now < 2 ^ 32 }
        ensures { result ≡ place ids.now id }
    {
        let (start, range) = self.range(ids, id);
        match range.binary_search(&id) {
            Ok(i) => (start + i) as u32,
            Err(_) => unreachable!(),
        }
    }
}
