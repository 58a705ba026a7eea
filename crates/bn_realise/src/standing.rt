//! A net that is one bank and nothing else.
ghost use Rattle.std.specs.Prelude.{◌≡◌, ℕ, ◌+◌, ◌*◌, ◌<◌, ◌≤◌, length, replicate, slice_set, IfOk};
ghost use Rattle.bn_realise.specs.Banks.{bottom_at};
ghost use Rattle.bn_element.specs.Tables.{Table, IsReversible};
ghost use Rattle.bn_circuits.specs.Circuits.{IsCircuit, IsConfig};
ghost use Rattle.bn_circuits.specs.RotaryNets.{rotary_circuit};

use bn_circuits::{CLOCK, Config, MOST_ELEMENTS, Net, Place, States};
use bn_element::{HORIZONTAL, Rotary, VERTICAL, WEST};
use bn_lists::NoMemory;
use std::alloc::Global;
use std::marker::Model;

/// A net that is the bank of one machine. Contracts see the net and the numbers of states and ports.
#[derive(Debug, Drop)]
pub struct Bank {
    net: Net<Rotary>,
    states: u32,
    lines: u32,
}

impl Model for Bank {
    ghost use Rattle.std.specs.Prelude.{◌≡◌, ◌+◌, ◌*◌, ◌≤◌, length};
    ghost use Rattle.bn_circuits.specs.Circuits.{IsCircuit};
    ghost use Rattle.bn_circuits.specs.RotaryNets.{rotary_circuit};
    ghost use Rattle.bn_realise.specs.BankNets.{Banked, IsSomeBank};
    ghost use Rattle.bn_circuits.specs.declared.net.TheConstants.{MOST_ELEMENTS};

    ghost Value = { Banked };

    ghost view = { λ v. record { net = v.net; states = v.states; lines = v.lines } };

    ghost invariant = { λ v. (length v.net.elements ≡ v.states * (v.lines + 1))
        × (v.states * (v.lines + 1) ≤ MOST_ELEMENTS)
        × IsSomeBank (record { net = v.net; states = v.states; lines = v.lines })
        × IsCircuit (rotary_circuit v.net) };
}

impl Bank {
    ghost use Rattle.bn_realise.specs.Banks.{IsBankEntering, exit_after};
    ghost use Rattle.bn_realise.specs.BankNets.{Banked, IsBankOf, IsSomeBank, IsReadyBank, IsMove, HasLeft, start_at};

    // The bank with this net and these numbers of states and ports.
    pub(crate) fn of(net: Net<Rotary>, states: u32, lines: u32) -> Bank
        requires elements { length net.elements ≡ states * (lines + 1) }
        requires few { states * (lines + 1) ≤ MOST_ELEMENTS }
        requires some_bank { IsSomeBank (record { net = net; states = states; lines = lines }) }
        requires circuit { IsCircuit (rotary_circuit net) }
        ensures { result ≡ record { net = net; states = states; lines = lines } }
    {
        Bank { net, states, lines }
    }

    /// The bank's net: its columns are consecutive from element 0 on, each with its bottom last. The contract states
    /// that the net is the bank of some table.
    pub fn net(&self) -> &Net<Rotary>
        ensures net { result.now ≡ self.now.net }
        ensures some_bank { IsSomeBank self.now }
    {
        &self.net
    }

    /// Returns the bank's net. The call takes no memory. Its contract also states the invariant of every net.
    pub fn into_net(self) -> Net<Rotary>
        ensures net { result ≡ self.net }
        ensures circuit { IsCircuit (rotary_circuit result) }
    {
        let Bank {
            net,
            states: _,
            lines: _,
        } = self;
        net
    }

    /// The bank at rest in this state, with the signal about to enter this input port; both are counted from 0. The
    /// count of steps is 0, and the move can be made.
    pub fn start(&self, alloc: Global, state: u32, line: u32) -> Result<Config, NoMemory>
        requires state { state < self.now.states }
        requires line { line < self.now.lines }
        ensures start { IfOk result (λ c. c ≡ start_at self.now.states self.now.lines state line) }
        ensures good { IfOk result (IsConfig (rotary_circuit self.now.net)) }
        ensures entering { IfOk result (λ c. (t : Table) → IsBankOf self.now t → IsBankEntering 0 t state line c) }
        ensures ready { IfOk result (IsReadyBank self.now) }
    {
        let states = resting(alloc, self.states, self.lines, state)?;
        Ok(Config {
            states: States::new(states),
            place: Place::Enter {
                element: line,
                line: WEST,
            },
            steps: 0,
        })
    }

    /// Makes the bank's move from its state and the input port that the signal enters, and returns the number of
    /// element steps made, up to the output port, or to the loose output if the pair has no move. The signal has then
    /// left by that port. The call takes no memory.
    pub fn cross(&self, config: &mut Config) -> u64
        requires good { IsConfig (rotary_circuit self.now.net) config.old }
        requires entering { IsReadyBank self.now config.old }
        ensures moved { (t : Table) (q i : ℕ) → IsReversible t → t.outputs ≡ t.inputs → IsBankOf self.now t
            → IsBankEntering 0 t q i config.old
            → IsMove (rotary_circuit self.now.net) 0 t q i result config.old config.new }
        ensures left { (t : Table) (q i : ℕ) → IsReversible t → t.outputs ≡ t.inputs → IsBankOf self.now t
            → IsBankEntering 0 t q i config.old → HasLeft config.new.place (exit_after 0 t q i (t.go q i)) }
        ensures good { IsConfig (rotary_circuit self.now.net) config.new }
    {
        self.net.run(config, CLOCK)
    }
}

// The bars of a bank at rest in this state: all vertical except the bar of the bottom of the state's column.
fn resting(alloc: Global, states: u32, lines: u32, state: u32) -> Result<Vec<u32>, NoMemory>
    requires few { states * (lines + 1) ≤ MOST_ELEMENTS }
    requires state { state < states }
    ensures { IfOk result (λ v. v.items ≡ slice_set (replicate (states * (lines + 1)) 1) (bottom_at 0 lines state) 0) }
{
    let rows = lines as usize + 1;
    let mut bars = vec![in alloc; VERTICAL; states as usize * rows]?;
    bars[state as usize * rows + lines as usize] = HORIZONTAL;
    Ok(bars)
}
