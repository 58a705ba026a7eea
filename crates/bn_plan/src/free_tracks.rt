//! The tracks that are free, from which the least is taken next.

ghost use Rattle.std.specs.Prelude.{◌≡◌, ◌≤◌, ℕ, [], ◌∷◌, IfSome, IfNone, OnOk};
ghost use Rattle.bn_lists.specs.Lists.{Has};
ghost use Rattle.std.specs.List.Sorted.{IsPermutation};

use bn_lists::NoMemory;
use std::alloc::Global;
use std::cmp::Reverse;
use std::collections::BinaryHeap;
use std::marker::Model;

/// A collection of tracks, whose order contracts do not see.
#[derive(Drop)]
pub(crate) struct FreeTracks {
    tracks: BinaryHeap<Reverse<u32>>,
}

impl Model for FreeTracks {
    ghost use Rattle.std.specs.Prelude.{ℕ, List, map};
    ghost use Rattle.std.specs.BinaryHeap.{IsHeap, heap_items};
    ghost use Rattle.std.specs.Ordering.{nat_cmp};

    ghost Value = { List ℕ };

    ghost view = { λ f. map (λ r. r.0) (heap_items f.tracks) };

    ghost invariant = { λ f. IsHeap (λ x y. nat_cmp y.0 x.0) (heap_items f.tracks) };
}

impl FreeTracks {
    /// The empty collection.
    pub(crate) fn new(alloc: Global) -> FreeTracks
        ensures { result ≡ [] }
    {
        FreeTracks {
            tracks: BinaryHeap::new(alloc),
        }
    }

    /// Adds a track.
    pub(crate) fn add(&mut self, track: u32) -> Result<(), NoMemory>
        ensures { OnOk result (IsPermutation (track ∷ self.old) self.new) }
    {
        self.tracks.push(Reverse(track))?;
        Ok(())
    }

    /// Removes the least track and returns it; `None` if there is none.
    pub(crate) fn take_least(&mut self) -> Option<u32>
        ensures taken { IfSome result (λ n. IsPermutation self.old (n ∷ self.new)) }
        ensures least { IfSome result (λ n. (m : ℕ) → Has self.old m → n ≤ m) }
        ensures none { IfNone result (self.old ≡ []) }
        ensures kept { IfNone result (self.new ≡ self.old) }
    {
        let Reverse(track) = self.tracks.pop()?;
        Some(track)
    }
}
