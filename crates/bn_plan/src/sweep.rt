//! A sweep over all positions in order, in which each wire takes its track.

ghost use Rattle.std.specs.Prelude.{◌≡◌, ◌+◌, ◌*◌, ◌<◌, ◌≤◌, ◌^◌, [], List, length, replicate, IfOk, OnOk};
ghost use Rattle.bn_circuits.specs.declared.line.Wire.{Wire};
ghost use Rattle.bn_lists.specs.Lists.{Has};
ghost use Rattle.bn_plan.specs.Wires.{lesser, greater, AreRotary, HasFourLines};
ghost use Rattle.bn_plan.specs.Sweeping.{Swept, IsSwept, BeginsAt, TakesTrack, floor_of};

use crate::floor::Plan;
use crate::free_tracks::FreeTracks;
use crate::positions::{MOST_PLANNED, input_position, output_position, wire_from};
use crate::tracked::Tracked;
use bn_circuits::{Net, Wire};
use bn_element::Rotary;
use bn_lists::NoMemory;
use std::alloc::Global;
use std::marker::Model;

/// The state of the sweep before a position: the wires that begin earlier, and their tracks.
#[derive(Drop)]
pub(crate) struct Sweep {
    wires: Vec<Tracked>,
    free: FreeTracks,
    // For each position, the track of the wire that ends there, once that wire has begun.
    ending: Vec<Option<u32>>,
    tracks: u32,
    densest: u32,
}

impl Model for Sweep {
    ghost use Rattle.bn_plan.specs.Sweeping.{Swept};

    ghost Value = { Swept };

    ghost view = { λ s. record {
      wires = s.wires.items;
      free = s.free;
      ending = s.ending.items;
      tracks = s.tracks;
      densest = s.densest;
    } };
}

impl Sweep {
    /// The state before the first of this many positions.
    pub(crate) fn new(alloc: Global, positions: u32) -> Result<Sweep, NoMemory>
        ensures positions { IfOk result (λ s. length s.ending ≡ positions) }
        ensures swept { IfOk result (λ s. (ws : List Wire) → IsSwept ws 0 s) }
    {
        let ending = vec![in alloc; None; positions as usize]?;
        Ok(Sweep {
            wires: Vec::new(alloc),
            free: FreeTracks::new(alloc),
            ending,
            tracks: 0,
            densest: 0,
        })
    }

    /// Passes a position of a net.
    pub(crate) fn go_past(&mut self, net: &Net<Rotary>, position: u32) -> Result<(), NoMemory>
        requires few { length net.now.elements ≤ MOST_PLANNED }
        requires position { position < 8 * length net.now.elements }
        requires positions { length self.old.ending ≡ 8 * length net.now.elements }
        requires swept { IsSwept net.now.wires position self.old }
        ensures positions { OnOk result (length self.new.ending ≡ 8 * length net.now.elements) }
        ensures swept { OnOk result (IsSwept net.now.wires (position + 1) self.new) }
    {
        match wire_from(net, position) {
            Some(wire) => self.begin(wire),
            None => self.end(position),
        }
    }

    /// The floor plan, once all positions have been passed.
    pub(crate) fn into_plan(self) -> Plan
        ensures { result ≡ floor_of self }
    {
        Plan {
            wires: self.wires,
            tracks: self.tracks,
            densest: self.densest,
        }
    }

    // Passes a position at which no wire begins. If a wire ends there, its track becomes free.
    fn end(&mut self, position: u32) -> Result<(), NoMemory>
        requires { position < length self.old.ending }
        ensures positions { OnOk result (length self.new.ending ≡ length self.old.ending) }
        ensures swept { OnOk result ((ws : List Wire) → AreRotary ws → ((w : Wire) → BeginsAt ws position w → ⊥) →
            IsSwept ws position self.old → IsSwept ws (position + 1) self.new) }
    {
        match self.ending[position as usize] {
            None => Ok(()),
            Some(track) => self.free.add(track),
        }
    }

    // Passes the position at which this wire begins.
    fn begin(&mut self, wire: Wire) -> Result<(), NoMemory>
        requires from { wire.from.element < MOST_PLANNED }
        requires to { wire.to.element < MOST_PLANNED }
        requires lines { HasFourLines wire }
        requires position { greater wire < length self.old.ending }
        requires tracks { self.old.tracks + 1 < 2 ^ 32 }
        ensures positions { OnOk result (length self.new.ending ≡ length self.old.ending) }
        ensures swept { OnOk result ((ws : List Wire) → AreRotary ws → Has ws wire →
            IsSwept ws (lesser wire) self.old → IsSwept ws (lesser wire + 1) self.new) }
    {
        let Wire { from, to } = wire;
        let output = output_position(from);
        let input = input_position(to);
        let track = self.take_track(output.min(input));
        self.ending[output.max(input) as usize] = Some(track);
        self.wires.push(Tracked { from, to, track })?;
        Ok(())
    }

    // The track for a wire that begins at this position: the least free track, or a new one if none is free. If the
    // track is new, no earlier position is covered by as many wires.
    fn take_track(&mut self, position: u32) -> u32
        requires { self.old.tracks + 1 < 2 ^ 32 }
        ensures { TakesTrack self.old position result self.new }
    {
        if let Some(track) = self.free.take_least() {
            return track;
        }
        self.tracks += 1;
        self.densest = position;
        self.tracks
    }
}
