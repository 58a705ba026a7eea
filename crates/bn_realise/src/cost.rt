//! The cost of a move of a bank.
ghost use Rattle.std.specs.Prelude.{◌≡◌, ◌<◌, ◌≤◌};
ghost use Rattle.bn_circuits.specs.Circuits.{clock};
ghost use Rattle.bn_rsm.specs.Machines.{machine_table};
ghost use Rattle.bn_rsm.specs.Costs.{pass_cost, cost_by, table_cost};
ghost use Rattle.bn_realise.specs.BankNets.{bank_elements};

use bn_circuits::MOST_ELEMENTS;
use bn_element::Element;
use bn_rsm::Rsm;

/// The element steps of the machine's bank from this state and input port, both counted from 0, to the output port of
/// the move, or to the loose output if the pair has no move. The call takes no memory.
pub fn bank_cost(rsm: &Rsm, state: u32, line: u32) -> u64
    requires some_states { 0 < rsm.now.states }
    requires some_lines { 0 < rsm.now.lines }
    requires few { bank_elements rsm.now ≤ MOST_ELEMENTS }
    requires state { state < rsm.now.states }
    requires line { line < rsm.now.lines }
    ensures { result ≡ table_cost (machine_table rsm.now) state line }
{
    steps_of(
        rsm.states(),
        rsm.lines_in(),
        state,
        line,
        rsm.go(state, line),
    )
}

/// The element steps of a bank with this many states and ports from this state and port, given the entry of its table
/// for the pair.
pub(crate) fn steps_of(
    states: u32,
    lines: u32,
    state: u32,
    line: u32,
    moved: Option<(u32, u32)>,
) -> u64
    requires { cost_by states lines state line moved ≤ clock }
    ensures { result ≡ cost_by states lines state line moved }
{
    let before = u64::from(state) * past(lines, line);
    match moved {
        None => before + u64::from(lines) + 2,
        Some((next, out)) => {
            let behind = u64::from(states.saturating_sub(next.saturating_add(1)));
            before + 2 * (u64::from(lines) + 2) + behind * past(lines, out)
        }
    }
}

// The element steps of passing one unmarked column along this row, counted from 0.
fn past(lines: u32, row: u32) -> u64
    ensures { result ≡ pass_cost lines row }
{
    2 * u64::from(lines.saturating_sub(row.saturating_add(1))) + 4
}
