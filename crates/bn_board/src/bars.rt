//! The bars of a circuit at the start.

ghost use Rattle.std.specs.Prelude.{◌≡◌, ℕ, ◌+◌, ◌<◌, ◌≤◌, ◌++◌, length, replicate, slice_set, Some, slice_get};
ghost use Rattle.std.specs.Prelude.{IfOk, OnOk};
ghost use Rattle.bn_element.specs.Tables.{Table};
ghost use Rattle.bn_element.specs.Rotary.{horizontal, vertical};
ghost use Rattle.bn_realise.specs.Banks.{bottom_at};
ghost use Rattle.bn_boards.specs.Boards.{AreModules, bars_of, size, size_of};
ghost use Rattle.bn_network_assembly.specs.Modules.{module_table};
ghost use Rattle.bn_board.specs.BoardWires.{module_circuit};

use crate::wiring::size_of;
use bn_circuits::{MOST_ELEMENTS, Net};
use bn_element::{Element, HORIZONTAL, VERTICAL};
use bn_lists::NoMemory;
use bn_network_assembly::Module;
use std::alloc::Global;

// The bars of the circuit of this net of modules in these states.
pub(crate) fn start_bars(
    alloc: Global,
    net: &Net<Module>,
    states: &[u32],
) -> Result<Vec<u32>, NoMemory>
    requires modules { AreModules (module_circuit net.now) }
    requires few { size (module_circuit net.now).tables ≤ MOST_ELEMENTS }
    requires counted { length states.now ≡ length net.now.elements }
    requires within { (m q : ℕ) (t : Table) → slice_get states.now m ≡ Some q
        → slice_get (module_circuit net.now).tables m ≡ Some t → q < t.states }
    ensures { IfOk result (λ v. v.items ≡ bars_of (module_circuit net.now).tables states.now) }
{
    let mut bars = Vec::new(alloc);
    for number in 0..net.len() {
        push_bank(&mut bars, net.element(number), states[number as usize])?;
    }
    Ok(bars)
}

// Adds the bars of a module's bank in this state.
fn push_bank(bars: &mut Vec<u32>, bank: &Module, state: u32) -> Result<(), NoMemory>
    requires some { 0 < (module_table bank.now).states }
    requires few { length bars.old.items + size_of (module_table bank.now) ≤ MOST_ELEMENTS }
    requires state { state < (module_table bank.now).states }
    ensures { OnOk result (bars.new.items ≡ bars.old.items
        ++ slice_set (replicate (size_of (module_table bank.now)) vertical)
        (bottom_at 0 (module_table bank.now).inputs state) horizontal) }
{
    let lines = bank.lines_in();
    let first = bars.len();
    bars.resize(first + size_of(bank) as usize, VERTICAL)?;
    bars[first + (state * (lines + 1) + lines) as usize] = HORIZONTAL;
    Ok(())
}
