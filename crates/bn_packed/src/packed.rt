//! Packed netlists.

ghost use Rattle.std.specs.Prelude.{◌≡◌, ◌+◌, ◌<◌, ◌≤◌, List, length, Some, IfOk, slice_get, slice_set};
ghost use Rattle.std.specs.Bool.{OnTrue, OnFalse};
ghost use Rattle.bn_circuits.specs.Circuits.{IsCircuit, IsConfig, IsOutputOf, Goes, IsStuck, IsFirst, target};
ghost use Rattle.bn_circuits.specs.Circuits.{clock, place_after};
ghost use Rattle.bn_packed.specs.PackedNets.{config_at};
ghost use Rattle.bn_circuits.specs.Stepping.{places};
ghost use Rattle.bn_circuits.specs.declared.line.Wire.{Wire};
ghost use Rattle.bn_circuits.specs.Watching.{Hears};
ghost use Rattle.bn_circuits.specs.RotaryNets.{rotary_circuit};
ghost use Rattle.bn_element.specs.declared.rotary.Rotary.{Rotary};
ghost use Rattle.bn_circuits.specs.Order.{AreInOrder};
ghost use Rattle.bn_circuits.specs.Parts.{Parts};
ghost use Rattle.bn_circuits.specs.RotaryNets.{IsNetOf};
ghost use Rattle.bn_circuits.specs.Wirings.{AreApart, AreFitting};
ghost use Rattle.bn_packed.specs.Drafts.{AreDrawn};
ghost use Rattle.bn_packed.specs.Running.{IsLongestRun, places_along};
ghost use Rattle.bn_packed.specs.Stopping.{IsStoppedRun};

use crate::bars::Bars;
use crate::direction::Direction;
use crate::draft::Draft;
use crate::signal::Signal;
use crate::stop::Stop;
use crate::wires::Wires;
use bn_circuits::{CLOCK, Config, Line, Net, Place, Quiet, States, Watch, Wire};
use bn_element::Rotary;
use bn_lists::NoMemory;
use std::alloc::Global;
use std::marker::Model;

/// A net of rotary elements with a configuration of it, packed: one bit per bar, and for each port one number that
/// denotes where a signal goes from it. After the first step back, each port has another number that denotes where the
/// signal came from; its memory is reserved with the rest. The numbers have 32 bits in nets of fewer than 2 to the
/// power 30 elements, and 64 in larger ones. The ports are numbered in blocks of 1,024 elements, so that ports of one
/// direction lie side by side. Elements and ports are counted from 0. Contracts see the net and the configuration.
#[derive(Debug, Drop)]
pub struct Packed {
    wires: Wires,
    bars: Bars,
    signal: Signal,
}

impl Model for Packed {
    ghost use Rattle.bn_packed.specs.PackedNets.{PackedNet, IsPacked, net_in, config_at};

    ghost Value = { PackedNet };

    ghost view = { λ p. record { net = net_in p.wires; config = config_at p.bars p.signal.place p.signal.steps } };

    ghost invariant = { λ p. IsPacked (net_in p.wires) (config_at p.bars p.signal.place p.signal.steps) };
}

impl Packed {
    /// Packs the net and the configuration.
    pub fn from_net(alloc: Global, net: &Net<Rotary>, config: &Config) -> Result<Packed, NoMemory>
        requires { IsConfig (rotary_circuit net.now) config.now }
        ensures net { IfOk result (λ p. p.net ≡ net.now) }
        ensures config { IfOk result (λ p. p.config ≡ config.now) }
    {
        let wires = Wires::of(alloc, net)?;
        let bars = Bars::of(alloc, config.states.as_slice())?;
        Ok(Packed {
            wires,
            bars,
            signal: Signal {
                place: config.place,
                steps: config.steps,
            },
        })
    }

    /// Packs the net of a draft, in this configuration. The memory of the states is freed once the bars are packed.
    pub fn from_draft(alloc: Global, draft: Draft, config: Config) -> Result<Packed, NoMemory>
        requires drawn { (ws : List Wire) × AreDrawn draft.elements ws draft }
        requires good { (ws : List Wire) (net : Parts Rotary) → AreDrawn draft.elements ws draft
            → IsNetOf net draft.elements ws → IsConfig (rotary_circuit net) config }
        ensures net { IfOk result (λ p. (ws : List Wire) → AreDrawn draft.elements ws draft
            → IsNetOf p.net draft.elements ws) }
        ensures circuit { IfOk result (λ p. IsCircuit (rotary_circuit p.net)) }
        ensures order { IfOk result (λ p. AreInOrder p.net.wires) }
        ensures config { IfOk result (λ p. p.config ≡ config) }
    {
        let Config {
            states,
            place,
            steps,
        } = config;
        let bars = Bars::of(alloc, states.as_slice())?;
        drop(states);
        let wires = Wires::from_draft(alloc, draft)?;
        Ok(Packed {
            wires,
            bars,
            signal: Signal { place, steps },
        })
    }

    /// The configuration.
    pub fn to_config(&self, alloc: Global) -> Result<Config, NoMemory>
        ensures config { IfOk result (λ c. c ≡ self.now.config) }
        ensures good { IsConfig (rotary_circuit self.now.net) self.now.config }
    {
        let states = self.bars.to_states(alloc)?;
        Ok(Config {
            states: States::new(states),
            place: self.signal.place,
            steps: self.signal.steps,
        })
    }

    /// The number of elements. Its contract also states the invariant of all packed netlists.
    pub fn len(&self) -> u32
        ensures number { result ≡ length self.now.net.elements }
        ensures circuit { IsCircuit (rotary_circuit self.now.net) }
        ensures good { IsConfig (rotary_circuit self.now.net) self.now.config }
    {
        self.wires.len()
    }

    /// Where the signal is.
    pub fn place(&self) -> Place
        ensures { result ≡ self.now.config.place }
    {
        self.signal.place
    }

    /// The element steps made so far, at most `CLOCK`.
    pub fn steps(&self) -> u64
        ensures { result ≡ self.now.config.steps }
    {
        self.signal.steps
    }

    /// The state of an element's bar, `HORIZONTAL` or `VERTICAL`.
    pub fn bar(&self, element: u32) -> u32
        requires { element < length self.now.config.states }
        ensures bar { slice_get self.now.config.states element ≡ Some result }
        ensures range { result < 2 }
    {
        self.bars.get(element as usize)
    }

    /// The input port to which the wire of this output port leads, `None` exactly where no wire leaves it. Its
    /// contract also states the invariant of all packed netlists.
    pub fn target(&self, from: Line) -> Option<Line>
        requires { IsOutputOf (rotary_circuit self.now.net).tables from }
        ensures line { result ≡ target self.now.net.wires from }
        ensures circuit { IsCircuit (rotary_circuit self.now.net) }
    {
        self.wires.target(from)
    }

    /// Sets an element's bar to this state, for a move over many steps at once. Takes no memory.
    pub fn set_bar(&mut self, element: u32, state: u32)
        requires element { element < length self.old.net.elements }
        requires state { state < 2 }
        ensures net { self.new.net ≡ self.old.net }
        ensures config { self.new.config ≡ config_at (slice_set self.old.config.states element state)
            self.old.config.place self.old.config.steps }
    {
        self.bars.put(element as usize, state);
    }

    /// Puts the signal where it is after leaving by this output port, and adds `steps` to the count of steps. Takes no
    /// memory.
    pub fn send(&mut self, from: Line, steps: u64)
        requires from { IsOutputOf (rotary_circuit self.old.net).tables from }
        requires room { self.old.config.steps + steps ≤ clock }
        ensures net { self.new.net ≡ self.old.net }
        ensures config { self.new.config ≡ config_at self.old.config.states (place_after self.old.net.wires from)
            (self.old.config.steps + steps) }
    {
        let place = match self.wires.target(from) {
            Some(to) => Place::Enter {
                element: to.element,
                line: to.line,
            },
            None => Place::Left {
                element: from.element,
                line: from.line,
            },
        };
        self.signal = Signal {
            place,
            steps: self.signal.steps + steps,
        };
    }

    /// A copy of the packed netlist.
    pub fn copy(&self, alloc: Global) -> Result<Packed, NoMemory>
        ensures { IfOk result (λ p. p ≡ self.now) }
    {
        let wires = self.wires.copy(alloc)?;
        let bars = self.bars.copy(alloc)?;
        Ok(Packed {
            wires,
            bars,
            signal: self.signal,
        })
    }

    /// Makes one element step. Returns `false`, and changes nothing, exactly if no step can be made: the signal has
    /// left, or the steps are `CLOCK`. Takes no memory.
    pub fn step(&mut self) -> bool
        ensures net { self.new.net ≡ self.old.net }
        ensures made { OnTrue result (Goes (rotary_circuit self.old.net) self.old.config self.new.config) }
        ensures kept { OnFalse result (self.new.config ≡ self.old.config) }
        ensures stuck { OnFalse result (IsStuck (rotary_circuit self.old.net) self.old.config) }
        ensures good { IsConfig (rotary_circuit self.old.net) self.new.config }
    {
        self.run(1) == 1
    }

    /// Undoes one element step. Returns `false`, and changes nothing, exactly if no step led to this configuration:
    /// the steps are 0, or no wire feeds the input port. Takes no memory.
    pub fn back_step(&mut self) -> bool
        ensures net { self.new.net ≡ self.old.net }
        ensures made { OnTrue result (Goes (rotary_circuit self.old.net) self.new.config self.old.config) }
        ensures kept { OnFalse result (self.new.config ≡ self.old.config) }
        ensures first { OnFalse result (IsFirst (rotary_circuit self.old.net) self.old.config) }
        ensures good { IsConfig (rotary_circuit self.old.net) self.new.config }
    {
        self.run_back(1) == 1
    }

    /// Makes at most `e` element steps and returns how many: fewer only if no further step can be made. Takes no
    /// memory.
    pub fn run(&mut self, e: u64) -> u64
        ensures net { self.new.net ≡ self.old.net }
        ensures ran { IsLongestRun Direction.Forward (rotary_circuit self.old.net) e result self.old.config
            self.new.config }
    {
        self.run_watched(e, &mut Quiet)
    }

    /// Undoes at most `e` element steps and returns how many: fewer only if no further step can be undone. Takes no
    /// memory.
    pub fn run_back(&mut self, e: u64) -> u64
        ensures net { self.new.net ≡ self.old.net }
        ensures ran { IsLongestRun Direction.Backward (rotary_circuit self.old.net) e result self.old.config
            self.new.config }
    {
        self.run_back_watched(e, &mut Quiet)
    }

    /// Makes at most `e` element steps, as `run` does, reports the place after each step to the watch, and returns how
    /// many it made. Takes no memory.
    pub fn run_watched<W: Watch>(&mut self, e: u64, watch: &mut W) -> u64
        ensures net { self.new.net ≡ self.old.net }
        ensures ran { IsLongestRun Direction.Forward (rotary_circuit self.old.net) e result self.old.config
            self.new.config }
        ensures told { Hears (W.told watch.old)
            (places_along Direction.Forward (rotary_circuit self.old.net) e self.old.config) (W.told watch.new) }
    {
        let before = self.signal.steps;
        let count = e.min(CLOCK - before);
        self.signal = self.wires.walk(&mut self.bars, self.signal, count, watch);
        self.signal.steps - before
    }

    /// Makes at most `e` element steps in this direction, as `run_watched` and `run_back_watched` do, reports the
    /// place after each step to the watch, and returns how many it made. Takes no memory.
    pub fn run_along<W: Watch>(&mut self, direction: Direction, e: u64, watch: &mut W) -> u64
        ensures net { self.new.net ≡ self.old.net }
        ensures ran { IsLongestRun direction (rotary_circuit self.old.net) e result self.old.config self.new.config }
        ensures told { Hears (W.told watch.old)
            (places_along direction (rotary_circuit self.old.net) e self.old.config) (W.told watch.new) }
    {
        match direction {
            Direction::Forward => self.run_watched(e, watch),
            Direction::Backward => self.run_back_watched(e, watch),
        }
    }

    /// Makes at most `e` element steps, as `run_watched` does, but stops after a step if the signal is about to enter
    /// a port of `stop`, and returns how many it made. Takes no memory.
    pub fn run_until<S: Stop, W: Watch>(&mut self, e: u64, stop: &S, watch: &mut W) -> u64
        ensures net { self.new.net ≡ self.old.net }
        ensures ran { IsStoppedRun (rotary_circuit self.old.net) (S.stops stop.now) e result self.old.config
            self.new.config }
        ensures told { Hears (W.told watch.old)
            (places (rotary_circuit self.old.net) result self.old.config) (W.told watch.new) }
    {
        let before = self.signal.steps;
        let room = CLOCK - before;
        let count = room.min(e);
        self.signal = self
            .wires
            .walk_until(&mut self.bars, self.signal, count, stop, watch);
        self.signal.steps - before
    }

    /// Undoes at most `e` element steps, as `run_back` does, reports the place after each step to the watch, and
    /// returns how many it undid. Takes no memory.
    pub fn run_back_watched<W: Watch>(&mut self, e: u64, watch: &mut W) -> u64
        ensures net { self.new.net ≡ self.old.net }
        ensures ran { IsLongestRun Direction.Backward (rotary_circuit self.old.net) e result self.old.config
            self.new.config }
        ensures told { Hears (W.told watch.old)
            (places_along Direction.Backward (rotary_circuit self.old.net) e self.old.config) (W.told watch.new) }
    {
        let before = self.signal.steps;
        let count = e.min(before);
        self.signal = self
            .wires
            .walk_back(&mut self.bars, self.signal, count, watch);
        before - self.signal.steps
    }
}
