//! A schedule of events.

ghost use Rattle.std.specs.Prelude.{◌≡◌};

use crate::event::Event;
use std::marker::Model;

/// A schedule: events on the circuits of a farm, in their order. Contracts see the list of the events.
#[derive(Debug, Drop)]
pub struct Schedule {
    events: Vec<Event>,
}

impl Model for Schedule {
    ghost use Rattle.std.specs.Prelude.{List};
    ghost use Rattle.bn_farm.specs.declared.event.Event.{Event};

    ghost Value = { List Event };

    ghost view = { λ s. s.events.items };
}

impl Schedule {
    /// The schedule of these events. Allocates no memory.
    pub fn new(events: Vec<Event>) -> Schedule
        ensures { result ≡ events.items }
    {
        Schedule { events }
    }

    /// The events, in their order. Allocates no memory.
    pub fn events(&self) -> &[Event]
        ensures { result.now ≡ self.now }
    {
        self.events.as_slice()
    }
}
