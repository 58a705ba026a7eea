//! The crossings of a column in a net, and their costs.
ghost use Rattle.std.specs.Prelude.{◌≡◌, ℕ, ◌≤◌, Bool};
ghost use Rattle.bn_circuits.specs.Circuits.{IsConfig};
ghost use Rattle.bn_column.specs.Columns.{crossing_cost, IsColumn, IsEntering, CanCross, IsCrossing};
ghost use Rattle.bn_circuits.specs.RotaryNets.{rotary_circuit};

use bn_circuits::{Config, Net, Place};
use bn_element::{EAST, HORIZONTAL, Rotary};

/// The element steps of a crossing of a column of `rows` rows, from entering row `row`, counted from 1, to leaving it,
/// for a column that is marked or not and a signal that enters from the east or the west. The call takes no memory.
pub fn cost(rows: u32, row: u32, marked: bool, from_east: bool) -> u64
    requires first { 1 ≤ row }
    requires last { row ≤ rows }
    ensures { result ≡ crossing_cost rows row marked from_east }
{
    match (marked, from_east) {
        (false, false) => 2 * u64::from(rows - row) + 4,
        (true, true) => 2 * u64::from(row) + 1,
        _ => u64::from(rows) + 2,
    }
}

/// Crosses the column of `rows` rows whose top row is element `first`, from the row that the signal enters, and
/// returns the number of element steps made. The call takes no memory.
pub fn cross_in(net: &Net<Rotary>, config: &mut Config, first: u32, rows: u32) -> u64
    requires good { IsConfig (rotary_circuit net.now) config.old }
    requires column { IsColumn (rotary_circuit net.now) first rows }
    requires entering { CanCross first rows config.old }
    ensures crossed { (i : ℕ) (marked from_east : Bool) → IsEntering first rows i marked from_east config.old
        → IsCrossing (rotary_circuit net.now) first rows i marked from_east result config.old config.new }
    ensures good { IsConfig (rotary_circuit net.now) config.new }
{
    let Place::Enter { element, line } = config.place else {
        unreachable!();
    };
    let bottom = first as usize + rows as usize;
    let marked = config.states.get(bottom) == HORIZONTAL;
    let row = element - first + 1;
    net.run(config, cost(rows, row, marked, line == EAST))
}
