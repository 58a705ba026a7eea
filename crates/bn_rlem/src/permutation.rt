//! Permutations by their numbers in lexicographic order.

ghost use Rattle.std.specs.Prelude.{◌≡◌, ◌≤◌, ◌<◌, ◌++◌, ◌∷◌, [], IfOk, OnOk};
ghost use Rattle.std.specs.List.{range_with_len};
ghost use Rattle.bn_rlem.specs.Permutations.{IsPermutation};
ghost use Rattle.bn_rlem.specs.Permutations as numbers;

use bn_lists::NoMemory;
use std::alloc::Global;

// The number of permutations of this many entries.
pub(crate) fn factorial(count: u32) -> u64
    requires { count ≤ 20 }
    ensures { result ≡ numbers.factorial count }
{
    let mut product: u64 = 1;
    for factor in 0..count {
        product *= u64::from(factor) + 1;
    }
    product
}

// Appends an entry.
fn add(entries: &mut Vec<u32>, entry: u32) -> Result<(), NoMemory>
    ensures { OnOk result (entries.new.items ≡ entries.old.items ++ entry ∷ []) }
{
    entries.push(entry)?;
    Ok(())
}

// The numbers from 0 below `count`, in rising order.
fn numbers_below(alloc: Global, count: u32) -> Result<Vec<u32>, NoMemory>
    ensures { IfOk result (λ below. below.items ≡ range_with_len 0 count) }
{
    let mut below = Vec::new(alloc);
    for number in 0..count {
        add(&mut below, number)?;
    }
    Ok(below)
}

// The permutation of the numbers below `count` with this number, counted from 0 in lexicographic order.
pub(crate) fn permutation(alloc: Global, count: u32, number: u64) -> Result<Vec<u32>, NoMemory>
    requires few { count ≤ 20 }
    requires small { number < numbers.factorial count }
    ensures { IfOk result (λ p. IsPermutation (range_with_len 0 count) number p.items) }
{
    let mut left = numbers_below(alloc, count)?;
    let mut rest = number;
    let mut entries = Vec::new(alloc);
    for done in 0..count {
        let size = factorial(count - done - 1);
        let entry = left.remove((rest / size) as usize);
        add(&mut entries, entry)?;
        rest %= size;
    }
    Ok(entries)
}
