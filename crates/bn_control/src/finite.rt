//! A control: a sequential machine, and what its states mean.

ghost use Rattle.std.specs.Prelude.{◌≡◌, ◌<◌, ◌≤◌, All};
ghost use Rattle.bn_network.specs.Controls.{lines_before};

use bn_element::Element;
use bn_network::MOST_SYMBOLS;
use bn_rsm::Rsm;
use std::marker::Model;

/// The finite control of a machine of quadruples (own to this project): the sequential machine, and what its states
/// mean for the machine of quadruples. Contracts mention the sequential machine, the numbers of symbols, the first
/// command of each state of the machine of quadruples, and for each state of the control the first read for whose
/// reply it waits. States, symbols and ports are counted from 0, tapes from 1.
#[derive(Drop)]
pub struct Control {
    rsm: Rsm,
    symbols: [u32; 3],
    firsts: Vec<Option<(u32, u32)>>,
    awaited: Vec<Option<(u32, u32)>>,
}

impl Model for Control {
    ghost use Rattle.bn_control.specs.Controlled.{Controlled, controlled_code, IsKept};

    ghost Value = { Controlled };

    ghost coded = { controlled_code };

    ghost view = { λ c. record {
      machine = c.rsm;
      symbols = c.symbols;
      firsts = c.firsts.items;
      awaited = c.awaited.items;
    } };

    ghost invariant = { λ c. IsKept c.rsm c.symbols c.firsts.items c.awaited.items };
}

impl Control {
    ghost use Rattle.std.specs.Prelude.{◌≡◌, ◌↔◌, ℕ, ◌<◌, ◌≤◌, Some, None, length, slice_get, IfSome};
    ghost use Rattle.bn_control.specs.Controlled.{IsStuckAt, IsAnswer, IsTapeAwaited, IsKept};

    // A control of these parts.
    pub(crate) fn new(
        rsm: Rsm,
        symbols: [u32; 3],
        firsts: Vec<Option<(u32, u32)>>,
        awaited: Vec<Option<(u32, u32)>>,
    ) -> Control
        requires { IsKept rsm symbols firsts.items awaited.items }
        ensures { result ≡ record { machine = rsm; symbols = symbols; firsts = firsts.items; awaited = awaited.items } }
    {
        Control {
            rsm,
            symbols,
            firsts,
            awaited,
        }
    }

    /// The control as a sequential machine.
    pub fn rsm(&self) -> &Rsm
        ensures { result.now ≡ self.now.machine }
    {
        &self.rsm
    }

    /// The number of states of the machine of quadruples. (The control itself has other and more states.)
    pub fn quad_states(&self) -> u32
        ensures { result ≡ length self.now.firsts }
    {
        self.firsts.len() as u32
    }

    /// The first command of a state of the machine of quadruples: the control's state that waits for its reply, and
    /// the output port by which it is sent. `None` exactly for the final state. It takes no memory.
    pub fn first_command(&self, state: u32) -> Option<(u32, u32)>
        requires { state < length self.now.firsts }
        ensures { slice_get self.now.firsts state ≡ Some result }
    {
        self.firsts[state as usize]
    }

    /// The state of the machine of quadruples for whose first read this state of the control waits, and the tape that
    /// is read. `None` exactly if it waits for no first read. It takes no memory.
    pub fn awaited(&self, state: u32) -> Option<(u32, u32)>
        requires { state < self.now.machine.states }
        ensures kept { slice_get self.now.awaited state ≡ Some result }
        ensures tape { IsTapeAwaited result }
    {
        self.awaited[state as usize]
    }

    /// The state and the scanned symbol at which the machine of quadruples is stuck: `Some` exactly if this state of
    /// the control waits for a first read, this input port carries a reply to it, and the control has no move. It
    /// takes no memory.
    pub fn stuck_of(&self, state: u32, line: u32) -> Option<(u32, u32)>
        requires state { state < self.now.machine.states }
        requires line { line < self.now.machine.lines }
        ensures { (a c : ℕ) → (result ≡ Some (a, c)) ↔ IsStuckAt self.now state line a c }
    {
        let Some((from, tape)) = self.awaited(state) else {
            return None;
        };
        let Some(symbol) = self.answered(tape, line) else {
            return None;
        };
        if self.rsm.go(state, line).is_some() {
            return None;
        }
        Some((from, symbol))
    }

    // The symbol of this tape that this input port reports, if it reports one.
    fn answered(&self, tape: u32, line: u32) -> Option<u32>
        requires first { 1 ≤ tape }
        requires last { tape ≤ 3 }
        ensures { (c : ℕ) → (result ≡ Some c) ↔ IsAnswer self.now.symbols tape line c }
    {
        let before = lines_before(&self.symbols, tape - 1);
        let symbol = line.checked_sub(before)?;
        if symbol < self.symbols[tape as usize - 1] {
            Some(symbol)
        } else {
            None
        }
    }
}

// The number of a control's ports before those of the tape after this one; tape 0 is the outside.
pub(crate) fn lines_before(symbols: &[u32; 3], tape: u32) -> u32
    requires tape { tape ≤ 3 }
    requires few { All (λ z. z ≤ MOST_SYMBOLS) symbols.now }
    ensures { result ≡ lines_before symbols.now tape }
{
    let mut lines = 1;
    for index in 0..tape as usize {
        lines += symbols[index] + 3;
    }
    lines
}
