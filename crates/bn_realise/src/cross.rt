//! The moves of a bank in a net.
ghost use Rattle.std.specs.Prelude.{◌≡◌, ◌↔◌, ℕ, ◌<◌, Some, IsTrue, length, slice_get};
ghost use Rattle.bn_circuits.specs.Circuits.{IsConfig};
ghost use Rattle.bn_circuits.specs.RotaryNets.{rotary_circuit};
ghost use Rattle.bn_realise.specs.Banks.{IsBank, IsBankEntering, IsResting, HasMark, bottom_at};
ghost use Rattle.bn_realise.specs.BankNets.{CanMove, IsMove};

use crate::cost::steps_of;
use bn_circuits::{Config, Net, Place};
use bn_element::{Element, HORIZONTAL, Rotary};

/// Makes the move of the bank of `machine` whose first element is `first`, from its state and the input port that the
/// signal enters, and returns the number of element steps made, up to the output port, or to the loose output if the
/// pair has no move. The call takes no memory.
pub fn cross_bank_in<E: Element>(
    net: &Net<Rotary>,
    config: &mut Config,
    first: u32,
    machine: &E,
) -> u64
    requires good { IsConfig (rotary_circuit net.now) config.old }
    requires square { (E.table machine.now).outputs ≡ (E.table machine.now).inputs }
    requires bank { IsBank (rotary_circuit net.now) first (E.table machine.now) }
    requires entering { CanMove first (E.table machine.now) config.old }
    ensures moved { (q i : ℕ) → IsBankEntering first (E.table machine.now) q i config.old
        → IsMove (rotary_circuit net.now) first (E.table machine.now) q i result config.old config.new }
    ensures good { IsConfig (rotary_circuit net.now) config.new }
{
    let Place::Enter { element, line: _ } = config.place else {
        unreachable!();
    };
    let (states, lines) = (machine.states(), machine.lines_in());
    let state = marked_column(config.states.as_slice(), first, states, lines);
    let row = element - first;
    let moved = machine.go(state, row);
    net.run(config, steps_of(states, lines, state, row, moved))
}

// The one marked column of a bank at rest.
fn marked_column(bars: &[u32], first: u32, columns: u32, rows: u32) -> u32
    requires { HasMark bars.now first columns rows }
    ensures { (q : ℕ) → q < columns → IsResting bars.now first columns rows (Some q) → result ≡ q }
{
    for column in 0..columns {
        if is_marked(bars, first, column, rows) {
            return column;
        }
    }
    unreachable!()
}

// Whether the bar of the column's bottom lies along west and east.
fn is_marked(bars: &[u32], first: u32, column: u32, rows: u32) -> bool
    requires { bottom_at first rows column < length bars.now }
    ensures { IsTrue result ↔ (slice_get bars.now (bottom_at first rows column) ≡ Some 0) }
{
    let height = rows as usize + 1;
    let bottom = first as usize + column as usize * height + rows as usize;
    bars[bottom] == HORIZONTAL
}
