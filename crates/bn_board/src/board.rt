//! Circuits (*board* in names), and their runs.

ghost use Rattle.std.specs.Prelude.{◌≡◌, length, IfOk};
ghost use Rattle.std.specs.Bool.{OnTrue, OnFalse};
ghost use Rattle.bn_circuits.specs.Circuits.{Goes, IsStuck, IsFirst};
ghost use Rattle.bn_circuits.specs.Stepping.{places};
ghost use Rattle.bn_circuits.specs.Watching.{Hears};
ghost use Rattle.bn_circuits.specs.RotaryNets.{rotary_circuit};
ghost use Rattle.bn_packed.specs.Running.{GoesTo, IsAtEnd, IsLongestRun};
ghost use Rattle.bn_packed.specs.Stopping.{IsStoppedRun};
ghost use Rattle.bn_boards.specs.Layouts.{elements_of};
ghost use Rattle.bn_boards.specs.Costs.{bound_of};
ghost use Rattle.bn_board.specs.Flattened.{IsBoardKept, IsSameBoard};

use crate::layout::Layout;
use bn_circuits::{Line, Place, Watch};
use bn_leap::{Passing, run_leaping, run_leaping_until};
use bn_lists::NoMemory;
use bn_packed::{Direction, Packed};
use std::alloc::Global;
use std::marker::Model;

/// The flat circuit of a machine (own to this project): one net of rotary elements for a network of modules, in a
/// configuration that was reached from the one in which it was made; with the port by which the signal enters at the
/// start, the port by which it leaves at the end, and the numbers by which the circuit is read. Elements and ports
/// are counted from 0. Contracts see the net, the configuration, the two ports and these numbers. No call changes
/// anything but the configuration; the configuration at the start is always as many steps back as the circuit has
/// made.
#[derive(Drop)]
pub struct Board {
    packed: Packed,
    start: Line,
    end: Line,
    layout: Layout,
}

impl Model for Board {
    ghost use Rattle.bn_board.specs.Flattened.{Flattened, IsBoardKept};

    ghost Value = { Flattened };

    ghost view = { λ b. record {
      net = b.packed.net;
      config = b.packed.config;
      start = b.start;
      end = b.end;
      layout = b.layout;
    } };

    ghost invariant = { λ b. IsBoardKept (record {
      net = b.packed.net;
      config = b.packed.config;
      start = b.start;
      end = b.end;
      layout = b.layout;
    }) };
}

impl Board {
    // The circuit with these parts.
    pub(crate) fn new(packed: Packed, start: Line, end: Line, layout: Layout) -> Board
        requires { IsBoardKept (record {
          net = packed.net;
          config = packed.config;
          start = start;
          end = end;
          layout = layout;
        }) }
        ensures { result ≡ record {
          net = packed.net;
          config = packed.config;
          start = start;
          end = end;
          layout = layout;
        } }
    {
        Board {
            packed,
            start,
            end,
            layout,
        }
    }

    /// The net with its configuration, packed. The contract also states what holds for every circuit afterwards.
    pub fn packed(&self) -> &Packed
        ensures net { result.now.net ≡ self.now.net }
        ensures config { result.now.config ≡ self.now.config }
        ensures kept { IsBoardKept self.now }
    {
        &self.packed
    }

    /// The net with its configuration, packed. The call consumes the circuit. The contract also states what holds for
    /// every circuit afterwards.
    pub fn into_packed(self) -> Packed
        ensures net { result.net ≡ self.net }
        ensures config { result.config ≡ self.config }
        ensures kept { IsBoardKept self }
    {
        let Board { packed, .. } = self;
        packed
    }

    // The numbers by which it is read.
    pub(crate) fn layout(&self) -> &Layout
        ensures layout { result.now ≡ self.now.layout }
        ensures kept { IsBoardKept self.now }
    {
        &self.layout
    }

    /// The port by which the signal enters at the start.
    pub fn start(&self) -> Line
        ensures { result ≡ self.now.start }
    {
        self.start
    }

    /// The port by which the signal leaves at the end.
    pub fn end(&self) -> Line
        ensures { result ≡ self.now.end }
    {
        self.end
    }

    /// The number of elements. The contract also states what holds for every circuit afterwards.
    pub fn len(&self) -> u32
        ensures number { result ≡ length self.now.net.elements }
        ensures kept { IsBoardKept self.now }
    {
        self.packed.len()
    }

    /// The place of the signal. The contract also states what holds for every circuit afterwards.
    pub fn place(&self) -> Place
        ensures place { result ≡ self.now.config.place }
        ensures kept { IsBoardKept self.now }
    {
        self.packed.place()
    }

    /// The number of element steps made so far, from the configuration in which the circuit was made.
    pub fn steps(&self) -> u64
        ensures { result ≡ self.now.config.steps }
    {
        self.packed.steps()
    }

    /// A bound on the number of element steps from the start until the signal leaves.
    pub fn bound(&self) -> u64
        ensures { result ≡ bound_of self.now.layout }
    {
        self.layout.bound()
    }

    /// A copy of the circuit, in the same configuration. `Err`: out of memory. The contract also states what holds
    /// for every circuit afterwards.
    pub fn copy(&self, alloc: Global) -> Result<Board, NoMemory>
        ensures same { IfOk result (λ b. b ≡ self.now) }
        ensures kept { IsBoardKept self.now }
    {
        let packed = self.packed.copy(alloc)?;
        let layout = self.layout.copy(alloc)?;
        Ok(Board {
            packed,
            start: self.start,
            end: self.end,
            layout,
        })
    }

    /// Makes one element step. `false` exactly if none can be made; then nothing has changed, because the signal has
    /// left, or the steps are `CLOCK`. Allocates no memory. The contract also states what holds for every circuit
    /// afterwards.
    pub fn step(&mut self) -> bool
        ensures made { OnTrue result (Goes (rotary_circuit self.old.net) self.old.config self.new.config) }
        ensures kept { OnFalse result (self.new ≡ self.old) }
        ensures stuck { OnFalse result (IsStuck (rotary_circuit self.old.net) self.old.config) }
        ensures same { IsSameBoard self.old self.new }
        ensures board { IsBoardKept self.new }
    {
        self.packed.step()
    }

    /// Undoes one element step. `false` exactly if no step led here; then nothing has changed, because the steps are
    /// 0, or no wire leads to the input port. Allocates no memory. The contract also states what holds for every
    /// circuit afterwards.
    pub fn back_step(&mut self) -> bool
        ensures made { OnTrue result (Goes (rotary_circuit self.old.net) self.new.config self.old.config) }
        ensures kept { OnFalse result (self.new ≡ self.old) }
        ensures first { OnFalse result (IsFirst (rotary_circuit self.old.net) self.old.config) }
        ensures same { IsSameBoard self.old self.new }
        ensures board { IsBoardKept self.new }
    {
        self.packed.back_step()
    }

    /// Makes one element step in this direction, as `step` and `back_step` do. `false` exactly if none can be made,
    /// and then nothing has changed. Allocates no memory. The contract also states what holds for every circuit
    /// afterwards.
    pub fn step_along(&mut self, direction: Direction) -> bool
        ensures made { OnTrue result (GoesTo direction (rotary_circuit self.old.net) self.old.config self.new.config) }
        ensures kept { OnFalse result (self.new ≡ self.old) }
        ensures ended { OnFalse result (IsAtEnd direction (rotary_circuit self.old.net) self.old.config) }
        ensures same { IsSameBoard self.old self.new }
        ensures board { IsBoardKept self.new }
    {
        match direction {
            Direction::Forward => self.step(),
            Direction::Backward => self.back_step(),
        }
    }

    /// Makes at most `e` element steps and returns how many: fewer only if no further step can be made. It makes the
    /// moves of banks at once. Allocates no memory.
    pub fn run(&mut self, e: u64) -> u64
        ensures ran { IsLongestRun Direction.Forward (rotary_circuit self.old.net) e result self.old.config
            self.new.config }
        ensures same { IsSameBoard self.old self.new }
    {
        run_leaping(&mut self.packed, &self.layout, e)
    }

    /// Undoes at most `e` element steps and returns how many: fewer only if no earlier step exists. Allocates no
    /// memory.
    pub fn run_back(&mut self, e: u64) -> u64
        ensures ran { IsLongestRun Direction.Backward (rotary_circuit self.old.net) e result self.old.config
            self.new.config }
        ensures same { IsSameBoard self.old self.new }
    {
        self.packed.run_back(e)
    }

    // Makes at most `e` element steps, and stops after a step if the signal is about to enter a port of `stop`;
    // reports the place after each step to the watch. If the watch does not listen, it makes the moves of banks at
    // once.
    pub(crate) fn run_until<S: Passing, W: Watch>(&mut self, e: u64, stop: &S, watch: &mut W) -> u64
        ensures ran { IsStoppedRun (rotary_circuit self.old.net) (S.stops stop.now) e result self.old.config
            self.new.config }
        ensures kept { IsBoardKept self.new }
        ensures same { IsSameBoard self.old self.new }
        ensures told { Hears (W.told watch.old) (places (rotary_circuit self.old.net) result self.old.config)
            (W.told watch.new) }
    {
        run_leaping_until(&mut self.packed, &self.layout, e, stop, watch)
    }
}
