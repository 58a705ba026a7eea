//! Sorting a list without repetitions.
ghost use Rattle.std.specs.Prelude.{◌≡◌, ◌≤◌, length, IfOk};
ghost use Rattle.std.specs.List.{Contains, Any};
ghost use Rattle.std.specs.List.Sorted.{IsStrictlySortedBy};
ghost use Rattle.std.specs.declared.cmp.Ordering.TheVariants.{Equal};

use std::alloc::AllocError;

/// The elements in rising order; of elements that compare as equal, one remains. `Err`: out of memory.
pub(crate) fn in_order<T: Ord + Drop>(mut items: Vec<T>) -> Result<Vec<T>, AllocError>
    ensures rising { IfOk result (λ v. IsStrictlySortedBy T.cmp v.items) }
    ensures each { IfOk result (λ v. (x : T) → Contains items.items x → Any (λ y. T.cmp x y ≡ Equal) v.items) }
    ensures only { IfOk result (λ v. (x : T) → Contains v.items x → Contains items.items x) }
    ensures few { IfOk result (λ v. length v.items ≤ length items.items) }
{
    items.sort()?;
    items.dedup();
    Ok(items)
}
