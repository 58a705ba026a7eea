//! The wires of a net, in numbers of the size that its ports need.

ghost use Rattle.std.specs.Prelude.{◌≡◌, ◌⊎◌, ◌+◌, ◌-◌, ◌<◌, ◌≤◌, true, List, length, IfOk};
ghost use Rattle.bn_circuits.specs.Circuits.{IsCircuit, IsConfig, IsOutputOf, IsStuck, IsFirst, target, clock};
ghost use Rattle.bn_circuits.specs.declared.line.Wire.{Wire};
ghost use Rattle.bn_circuits.specs.Walking.{HasWalked, HasWalkedBack};
ghost use Rattle.bn_circuits.specs.RotaryNets.{rotary_circuit};
ghost use Rattle.bn_circuits.specs.Order.{AreInOrder};
ghost use Rattle.bn_circuits.specs.RotaryNets.{IsNetOf};
ghost use Rattle.bn_circuits.specs.Wirings.{AreApart, AreFitting};
ghost use Rattle.bn_packed.specs.Drafts.{AreDrawn};
ghost use Rattle.bn_packed.specs.PackedNets.{net_in, config_at};
ghost use Rattle.bn_packed.specs.Stopping.{PassesBy, stops_at};

use crate::bars::Bars;
use crate::cells::NARROW;
use crate::draft::Draft;
use crate::signal::Signal;
use crate::stop::Stop;
use crate::walk::{walk, walk_back, walk_until};
use crate::wiring::Wiring;
use bn_circuits::{Line, Net, Watch, Wire};
use bn_element::Rotary;
use bn_lists::NoMemory;
use std::alloc::Global;

/// The wires of a net of rotary elements, with numbers of 32 bits if these suffice, and of 64 otherwise.
#[derive(Debug, Drop)]
pub(crate) enum Wires {
    Narrow(Wiring<u32>),
    Wide(Wiring<u64>),
}

impl Wires {
    /// The wires of this net.
    pub(crate) fn of(alloc: Global, net: &Net<Rotary>) -> Result<Wires, NoMemory>
        ensures net { IfOk result (λ w. net_in w ≡ net.now) }
        ensures circuit { IfOk result (λ w. IsCircuit (rotary_circuit (net_in w))) }
    {
        if net.len() <= NARROW {
            Ok(Wires::Narrow(Wiring::of(alloc, net)?))
        } else {
            Ok(Wires::Wide(Wiring::of(alloc, net)?))
        }
    }

    /// The wires of this draft.
    pub(crate) fn from_draft(alloc: Global, draft: Draft) -> Result<Wires, NoMemory>
        requires { (ws : List Wire) × AreDrawn draft.elements ws draft }
        ensures net { IfOk result (λ w. (ws : List Wire) → AreDrawn draft.elements ws draft
            → IsNetOf (net_in w) draft.elements ws) }
        ensures order { IfOk result (λ w. AreInOrder (net_in w).wires) }
        ensures circuit { IfOk result (λ w. IsCircuit (rotary_circuit (net_in w))) }
    {
        let wiring = Wiring::from_ahead(alloc, draft.into_ends())?;
        Ok(Wires::Narrow(wiring))
    }

    /// The number of elements. Its contract also states the invariant of all wires.
    pub(crate) fn len(&self) -> u32
        ensures number { result ≡ length (net_in self.now).elements }
        ensures circuit { IsCircuit (rotary_circuit (net_in self.now)) }
    {
        match self {
            Wires::Narrow(wiring) => wiring.len(),
            Wires::Wide(wiring) => wiring.len(),
        }
    }

    /// The input port to which the wire of this output port leads.
    pub(crate) fn target(&self, from: Line) -> Option<Line>
        requires { IsOutputOf (rotary_circuit (net_in self.now)).tables from }
        ensures { result ≡ target (net_in self.now).wires from }
    {
        match self {
            Wires::Narrow(wiring) => wiring.target(from),
            Wires::Wide(wiring) => wiring.target(from),
        }
    }

    /// A copy of the wires.
    pub(crate) fn copy(&self, alloc: Global) -> Result<Wires, NoMemory>
        ensures { IfOk result (λ w. net_in w ≡ net_in self.now) }
    {
        match self {
            Wires::Narrow(wiring) => Ok(Wires::Narrow(wiring.copy(alloc)?)),
            Wires::Wide(wiring) => Ok(Wires::Wide(wiring.copy(alloc)?)),
        }
    }

    /// Makes at most `count` steps, which the clock admits, and reports the place after each step to the watch.
    pub(crate) fn walk<W: Watch>(
        &self,
        bars: &mut Bars,
        signal: Signal,
        count: u64,
        watch: &mut W,
    ) -> Signal
        requires good { IsConfig (rotary_circuit (net_in self.now)) (config_at bars.old signal.place signal.steps) }
        requires room { signal.steps + count ≤ clock }
        ensures forward { signal.steps ≤ result.steps }
        ensures limit { result.steps ≤ signal.steps + count }
        ensures walked { HasWalked (rotary_circuit (net_in self.now))
            (config_at bars.old signal.place signal.steps) (config_at bars.new result.place result.steps)
            (result.steps - signal.steps) (W.told watch.old) (W.told watch.new) }
        ensures ended { result.steps < signal.steps + count
            → IsStuck (rotary_circuit (net_in self.now)) (config_at bars.new result.place result.steps) }
    {
        match self {
            Wires::Narrow(wiring) => walk(wiring, bars, signal, count, watch),
            Wires::Wide(wiring) => walk(wiring, bars, signal, count, watch),
        }
    }

    /// Makes at most `count` steps, which the clock admits, and reports the place after each step to the watch. The
    /// walk ends early if the signal is about to enter a port of `stop`.
    pub(crate) fn walk_until<S: Stop, W: Watch>(
        &self,
        bars: &mut Bars,
        signal: Signal,
        count: u64,
        stop: &S,
        watch: &mut W,
    ) -> Signal
        requires good { IsConfig (rotary_circuit (net_in self.now)) (config_at bars.old signal.place signal.steps) }
        requires room { signal.steps + count ≤ clock }
        ensures forward { signal.steps ≤ result.steps }
        ensures limit { result.steps ≤ signal.steps + count }
        ensures walked { HasWalked (rotary_circuit (net_in self.now))
            (config_at bars.old signal.place signal.steps) (config_at bars.new result.place result.steps)
            (result.steps - signal.steps) (W.told watch.old) (W.told watch.new) }
        ensures ended { result.steps < signal.steps + count
            → IsStuck (rotary_circuit (net_in self.now)) (config_at bars.new result.place result.steps)
            ⊎ (stops_at (S.stops stop.now) result.place ≡ true) }
        ensures between { PassesBy (rotary_circuit (net_in self.now)) (S.stops stop.now) (result.steps - signal.steps)
            (config_at bars.old signal.place signal.steps) (config_at bars.new result.place result.steps) }
        ensures moves { 0 < count
            → signal.steps < result.steps
            ⊎ IsStuck (rotary_circuit (net_in self.now)) (config_at bars.old signal.place signal.steps) }
    {
        match self {
            Wires::Narrow(wiring) => walk_until(wiring, bars, signal, count, stop, watch),
            Wires::Wide(wiring) => walk_until(wiring, bars, signal, count, stop, watch),
        }
    }

    /// Undoes at most `count` steps, no more than the signal has made, and reports the place after each step to the
    /// watch.
    pub(crate) fn walk_back<W: Watch>(
        &mut self,
        bars: &mut Bars,
        signal: Signal,
        count: u64,
        watch: &mut W,
    ) -> Signal
        requires good { IsConfig (rotary_circuit (net_in self.old)) (config_at bars.old signal.place signal.steps) }
        requires counted { count ≤ signal.steps }
        ensures same { net_in self.new ≡ net_in self.old }
        ensures backward { result.steps ≤ signal.steps }
        ensures limit { signal.steps ≤ result.steps + count }
        ensures walked { HasWalkedBack (rotary_circuit (net_in self.old))
            (config_at bars.old signal.place signal.steps) (config_at bars.new result.place result.steps)
            (signal.steps - result.steps) (W.told watch.old) (W.told watch.new) }
        ensures ended { signal.steps < result.steps + count
            → IsFirst (rotary_circuit (net_in self.old)) (config_at bars.new result.place result.steps) }
    {
        if count == 0 {
            return signal;
        }
        match self {
            Wires::Narrow(wiring) => {
                wiring.make_way_back();
                walk_back(wiring, bars, signal, count, watch)
            }
            Wires::Wide(wiring) => {
                wiring.make_way_back();
                walk_back(wiring, bars, signal, count, watch)
            }
        }
    }
}
