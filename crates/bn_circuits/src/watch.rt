//! Watches: receivers of each place that a signal reaches.

ghost use Rattle.std.specs.Prelude.{◌≡◌, ℕ, false, ◌<◌, ◌≤◌, ◌++◌, ◌∷◌, [], List, length, Option, Some, None, IfOk};
ghost use Rattle.std.specs.Prelude.{nat_lt, if◌then◌else◌, vec_len};
ghost use Rattle.std.specs.Vec.{vec_capacity};

use crate::Place;
use bn_lists::NoMemory;
use std::alloc::Global;
use std::marker::Model;

/// A receiver of the place after each element step. Contracts see a watch as the list of the places that it received,
/// if it makes this list known.
pub trait Watch {
    ghost use Rattle.std.specs.Prelude.{◌≡◌, Option, None, List, [], ◌∷◌};
    ghost use Rattle.std.specs.Bool.{OnFalse};
    ghost use Rattle.bn_circuits.specs.declared.place.Place.{Place};
    ghost use Rattle.bn_circuits.specs.Watching.{Hears};

    /// The places received, the first one first, or `None` if the list is not known.
    ghost told: { Self → Option (List Place) };

    /// Whether the watch needs the places; `true` by default. A watch that returns `false` makes no list known, and a
    /// run may skip over places.
    fn listens(&self) -> bool
        ensures { OnFalse result (told self.now ≡ None) }
    {
        true
    }

    /// Reports a place to the watch. Afterwards its list is not known, or it was known before and has grown by this
    /// place at its end. Allocates no memory.
    fn enter(&mut self, place: &Place)
        ensures { Hears (told self.old) (place.now ∷ []) (told self.new) };
}

/// A watch that keeps no list.
#[derive(Clone, Copy, Debug)]
pub struct Quiet;

impl Watch for Quiet {
    ghost use Rattle.std.specs.Prelude.{None};

    ghost told = { λ _. None };

    fn listens(&self) -> bool {
        false
    }

    fn enter(&mut self, _place: &Place) {}
}

/// A watch in memory. Its list is known as long as it has received at most `room` places.
#[derive(Debug, Drop)]
pub struct MemWatch {
    places: Vec<Place>,
    room: usize,
    lost: bool,
}

impl Model for MemWatch {
    ghost use Rattle.bn_circuits.specs.Heard.{Heard};

    ghost Value = { Heard };

    ghost use Rattle.std.specs.Prelude.{◌≤◌, vec_len};
    ghost use Rattle.std.specs.Vec.{vec_capacity};

    ghost view = { λ w. record { places = w.places.items; room = w.room; lost = w.lost } };

    ghost invariant = { λ w. (vec_len w.places ≤ w.room) × (w.room ≤ vec_capacity w.places) };
}

impl MemWatch {
    ghost use Rattle.bn_circuits.specs.Heard.{Heard};

    /// A watch that has received no place yet, with room for this many places. It allocates all its memory here.
    pub fn try_new(alloc: Global, room: usize) -> Result<MemWatch, NoMemory>
        ensures { IfOk result (λ w.
            w ≡ (let fresh : Heard = record { places = []; room = room; lost = false } in fresh)) }
    {
        let places = Vec::with_capacity(alloc, room)?;
        Ok(MemWatch {
            places,
            room,
            lost: false,
        })
    }

    /// The first places received, at most `room` of them.
    pub fn places(&self) -> &[Place]
        ensures { result.now ≡ self.now.places }
    {
        self.places.as_slice()
    }
}

impl Watch for MemWatch {
    ghost use Rattle.bn_circuits.specs.Watching.{Hears};
    ghost use Rattle.bn_circuits.specs.Heard.{told_by, hears_next};

    ghost told = { told_by };

    fn enter(&mut self, place: &Place)
        ensures hears { Hears (told_by self.old) (place.now ∷ []) (told_by self.new) }
        ensures exact { self.new ≡ hears_next self.old place.now }
    {
        if self.places.len() < self.room {
            self.places.push_reserved(*place);
        } else {
            self.lost = true;
        }
    }
}
