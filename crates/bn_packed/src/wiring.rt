//! The wires of a net of rotary elements, stored in both directions or only ahead.

ghost use Rattle.std.specs.Prelude.{◌≡◌, ◌<◌, ◌≤◌, ◌^◌, false, true, length, map, IfOk};
ghost use Rattle.bn_circuits.specs.Circuits.{IsCircuit, IsOutputOf, target};
ghost use Rattle.bn_circuits.specs.RotaryNets.{rotary_circuit};
ghost use Rattle.bn_circuits.specs.Order.{AreInOrder};
ghost use Rattle.bn_circuits.specs.RotaryNets.{IsNetOf};
ghost use Rattle.bn_circuits.specs.Wirings.{AreApart, AreFitting};
ghost use Rattle.bn_packed.specs.Ends.{AreTargets, HasEnds, ahead, behind, targets_by, net_of};

use crate::cells::{Cell, LINES, nth_line, opposite};
use crate::ends::Ends;
use bn_circuits::{Line, Net, Wire};
use bn_element::Rotary;
use bn_lists::NoMemory;
use std::alloc::Global;
use std::marker::Model;

/// The wires of a net of rotary elements: for each input port the one that the signal enters next if it crosses the
/// element straight (`ahead`), and the one from which it came, crossing its element straight (`behind`). Therefore a
/// signal that crosses an element straight keeps its number. `behind` is built from `ahead` at the first step back,
/// but its memory is reserved at the start, so that going back takes no memory. Contracts see the net, and whether
/// `behind` is built.
#[derive(Debug, Drop)]
pub(crate) struct Wiring<C: Cell> {
    ahead: Ends<C>,
    behind: Ends<C>,
    // the memory for `behind`, as long as `behind` is not built
    room: Option<Vec<C>>,
}

impl<C: Cell> Model for Wiring<C> {
    ghost use Rattle.std.specs.Prelude.{◌≡◌, ◌≤◌, [], MatchOption, is_none, vec_capacity};
    ghost use Rattle.bn_packed.specs.Ways.{Ways};
    ghost use Rattle.bn_packed.specs.Ends.{net_of, targets_by, sources_by, numbers_for, AreTargets, IsWiring};

    ghost Value = { Ways };

    ghost view = { λ w. record { net = net_of (targets_by w.ahead); goes_back = is_none w.room } };

    ghost invariant = { λ w. AreTargets w.ahead
        × MatchOption w.room (IsWiring (targets_by w.ahead) (sources_by w.behind))
        (λ v. (v.items ≡ []) × (numbers_for w.ahead.elements ≤ vec_capacity v)) };
}

impl<C: Cell> Wiring<C> {
    /// The wires of this net.
    pub(crate) fn of(alloc: Global, net: &Net<Rotary>) -> Result<Wiring<C>, NoMemory>
        requires { length net.now.elements ≤ C.limit }
        ensures { IfOk result (λ w. w.net ≡ net.now) }
    {
        Wiring::from_ahead(alloc, ahead_of(alloc, net)?)
    }

    /// The wiring with these ends ahead.
    pub(crate) fn from_ahead(alloc: Global, ahead: Ends<C>) -> Result<Wiring<C>, NoMemory>
        requires { AreTargets ahead }
        ensures wires { IfOk result (λ w. w ≡ record { net = net_of (targets_by ahead); goes_back = false }) }
        ensures circuit { IfOk result (λ w. IsCircuit (rotary_circuit w.net)) }
    {
        let room = Ends::room(alloc, ahead.elements())?;
        Ok(Wiring {
            ahead,
            behind: Ends::empty(alloc),
            room: Some(room),
        })
    }

    /// The number of elements. Its contract also states the invariant of all wirings.
    pub(crate) fn len(&self) -> u32
        ensures number { result ≡ length self.now.net.elements }
        ensures circuit { IsCircuit (rotary_circuit self.now.net) }
    {
        self.ahead.elements()
    }

    /// The input port to which the wire of this output port leads.
    pub(crate) fn target(&self, from: Line) -> Option<Line>
        requires { IsOutputOf (rotary_circuit self.now.net).tables from }
        ensures { result ≡ target self.now.net.wires from }
    {
        self.ahead.get(opposite(from))
    }

    /// The port that the signal enters next from each input port if it crosses the element straight, indexed by the
    /// numbers of the ports. Its contract also states the invariant of all wirings.
    pub(crate) fn ahead(&self) -> &[C]
        ensures ends { HasEnds (ahead self.now.net.wires) (length self.now.net.elements) (map C.tells result.now) }
        ensures circuit { IsCircuit (rotary_circuit self.now.net) }
        ensures few { length self.now.net.elements < 2 ^ 32 }
    {
        self.ahead.as_slice()
    }

    /// Builds the ends behind, if they are not built yet. Takes no memory.
    pub(crate) fn make_way_back(&mut self)
        ensures net { self.new.net ≡ self.old.net }
        ensures made { self.new.goes_back ≡ true }
        ensures circuit { IsCircuit (rotary_circuit self.new.net) }
    {
        if let Some(room) = self.room.take() {
            self.behind = self.ahead.inverse_in(room);
        }
    }

    /// The port from which the signal came to each input port, crossing its element straight, indexed by the numbers
    /// of the ports. The ends behind must be built. Its contract also states the invariant of all wirings.
    pub(crate) fn behind(&self) -> &[C]
        requires { self.now.goes_back ≡ true }
        ensures ends { HasEnds (behind self.now.net.wires) (length self.now.net.elements) (map C.tells result.now) }
        ensures circuit { IsCircuit (rotary_circuit self.now.net) }
        ensures few { length self.now.net.elements < 2 ^ 32 }
    {
        self.behind.as_slice()
    }

    /// A copy of the wiring, with the ends behind, if they are built.
    pub(crate) fn copy(&self, alloc: Global) -> Result<Wiring<C>, NoMemory>
        ensures { IfOk result (λ w. w ≡ self.now) }
    {
        let ahead = self.ahead.copy(alloc)?;
        if self.room.is_some() {
            return Wiring::from_ahead(alloc, ahead);
        }
        Ok(Wiring {
            ahead,
            behind: self.behind.copy(alloc)?,
            room: None,
        })
    }
}

// The ends ahead in the net, from which its wiring is built.
fn ahead_of<C: Cell>(alloc: Global, net: &Net<Rotary>) -> Result<Ends<C>, NoMemory>
    requires { length net.now.elements ≤ C.limit }
    ensures targets { IfOk result AreTargets }
    ensures net { IfOk result (λ e. net_of (targets_by e) ≡ net.now) }
{
    let mut ends = Ends::loose(alloc, net.len())?;
    for place in 0..LINES * net.len() as usize {
        let line = nth_line(place);
        if let Some(to) = net.target(opposite(line)) {
            ends.set(line, to);
        }
    }
    Ok(ends)
}
