//! How many vertices have each core number.
ghost use Rattle.std.specs.Prelude.{◌≡◌, ◌<◌, ◌≤◌, ◌+◌, ◌^◌, ◌++◌, ℕ, All, IfOk, OnOk, length, slice_index};
ghost use Rattle.kc_answers.specs.Answers.{sizes_of};
ghost use Rattle.kc_answers.specs.Counted.{counted, counted_below};
ghost use Rattle.kc_graph.specs.Core.{greatest};
ghost use Rattle.kc_lists.specs.Lists.{times};

use crate::NoMemory;
use kc_graph::greatest;
use kc_reply::LevelSize;
use std::alloc::Global;

/// Counts how often each number comes.
fn count_each(numbers: &[u32], counts: &mut [u32])
    requires within { All (λ n. n < length counts.old) numbers.now }
    requires none { (k : ℕ) → k < length counts.old → slice_index counts.old k ≡ 0 }
    requires few { length numbers.now < 2 ^ 32 }
    ensures len { length counts.new ≡ length counts.old }
    ensures each { (k : ℕ) → k < length counts.old → slice_index counts.new k ≡ times k numbers.now }
{
    for number in numbers {
        counts[*number as usize] += 1;
    }
}

/// How often each number comes, up to the greatest one.
fn counts_of(alloc: Global, numbers: &[u32]) -> Result<Vec<u32>, NoMemory>
    requires { length numbers.now < 2 ^ 32 }
    ensures len { IfOk result (λ counts. length counts.items ≡ greatest numbers.now + 1) }
    ensures few { IfOk result (λ counts. length counts.items ≤ 2 ^ 32) }
    ensures each { IfOk result (λ counts. (k : ℕ) → k < length counts.items → slice_index counts.items k ≡ times k numbers.now) }
{
    let levels = greatest(numbers) as usize + 1;
    let mut counts = vec![in alloc; 0u32; levels]?;
    count_each(numbers, &mut counts);
    Ok(counts)
}

/// Lists a number that comes so often, and not one that does not come.
fn list_count(listed: &mut Vec<LevelSize>, number: u32, count: u32) -> Result<(), NoMemory>
    ensures { OnOk result (listed.new.items ≡ listed.old.items ++ counted number count) }
{
    if count == 0 {
        return Ok(());
    }
    listed.push(LevelSize {
        core: number,
        vertices: count,
    })?;
    Ok(())
}

/// The numbers that come, ascending, where it is counted how often each comes.
fn list_counts(alloc: Global, counts: &[u32]) -> Result<Vec<LevelSize>, NoMemory>
    requires { length counts.now ≤ 2 ^ 32 }
    ensures { IfOk result (λ listed. listed.items ≡ counted_below counts.now (length counts.now)) }
{
    let mut listed = Vec::new(alloc);
    for (number, count) in counts.iter().enumerate() {
        list_count(&mut listed, number as u32, *count)?;
    }
    Ok(listed)
}

/// How many vertices have each core number that some vertex has, ascending.
pub(crate) fn sizes_of(alloc: Global, core: &[u32]) -> Result<Vec<LevelSize>, NoMemory>
    requires { length core.now < 2 ^ 32 }
    ensures { IfOk result (λ sizes. sizes.items ≡ sizes_of core.now) }
{
    let counts = counts_of(alloc, core)?;
    list_counts(alloc, &counts)
}
