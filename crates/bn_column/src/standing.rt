//! A net that is one column and nothing else.
ghost use Rattle.std.specs.Prelude.{◌≡◌, ℕ, ◌-◌, ◌<◌, ◌≤◌, Bool, true, false, IfOk, replicate, [], ◌∷◌, ◌++◌};
ghost use Rattle.bn_column.specs.Columns.{bar};
ghost use Rattle.bn_circuits.specs.Circuits.{IsConfig};

use crate::cross::cross_in;
use bn_circuits::{Config, Net, Place, States};
use bn_element::{EAST, HORIZONTAL, Rotary, VERTICAL, WEST};
use bn_lists::NoMemory;
use std::alloc::Global;
use std::marker::Model;

/// A net that is one column of rotary elements, and whether the column begins marked. Contracts see the net, the
/// number of rows, and the mark.
#[derive(Debug, Drop)]
pub struct Column {
    net: Net<Rotary>,
    rows: u32,
    marked: bool,
}

impl Model for Column {
    ghost use Rattle.std.specs.Prelude.{◌≤◌};
    ghost use Rattle.bn_column.specs.Nets.{Standing, IsColumnNet};

    ghost Value = { Standing };

    ghost view = { λ c. record { net = c.net; rows = c.rows; marked = c.marked } };

    ghost invariant = { λ c. IsColumnNet c.net c.rows × (c.rows ≤ 65535) };
}

impl Column {
    ghost use Rattle.bn_circuits.specs.declared.place.Place.TheVariants.{Left};
    ghost use Rattle.bn_column.specs.Columns.{IsEntering, CanCross, IsCrossing, exit_side};
    ghost use Rattle.bn_circuits.specs.RotaryNets.{rotary_circuit};
    ghost use Rattle.bn_column.specs.Nets.{IsColumnNet, IsStanding, start_at};

    // The column that this net is.
    pub(crate) fn of(net: Net<Rotary>, rows: u32, marked: bool) -> Column
        requires column { IsColumnNet net rows }
        requires few { rows ≤ 65535 }
        ensures { IsStanding result rows marked }
    {
        Column { net, rows, marked }
    }

    /// The column's net: its rows, from the top, are the elements from 0 on, and its bottom is the last element.
    pub fn net(&self) -> &Net<Rotary>
        ensures net { result.now ≡ self.now.net }
        ensures column { IsColumnNet self.now.net self.now.rows }
    {
        &self.net
    }

    /// The column at rest, marked as it begins, with the signal about to enter this row, counted from 1, from the
    /// west. The count of steps is 0.
    pub fn at_west(&self, alloc: Global, row: u32) -> Result<Config, NoMemory>
        requires first { 1 ≤ row }
        requires last { row ≤ self.now.rows }
        ensures start { IfOk result (λ c. c ≡ start_at self.now.rows self.now.marked row 3) }
        ensures good { IfOk result (IsConfig (rotary_circuit self.now.net)) }
        ensures entering { IfOk result (IsEntering 0 self.now.rows (row - 1) self.now.marked false) }
    {
        self.at_side(alloc, row, WEST)
    }

    /// The column at rest, marked as it begins, with the signal about to enter this row, counted from 1, from the
    /// east. The count of steps is 0.
    pub fn at_east(&self, alloc: Global, row: u32) -> Result<Config, NoMemory>
        requires first { 1 ≤ row }
        requires last { row ≤ self.now.rows }
        ensures start { IfOk result (λ c. c ≡ start_at self.now.rows self.now.marked row 1) }
        ensures good { IfOk result (IsConfig (rotary_circuit self.now.net)) }
        ensures entering { IfOk result (IsEntering 0 self.now.rows (row - 1) self.now.marked true) }
    {
        self.at_side(alloc, row, EAST)
    }

    /// Crosses the column, at rest and marked or not, from the row that the signal enters, and returns the number of
    /// element steps made. The signal then has left by the east of its row, or by the west if the column was marked.
    /// The call takes no memory.
    pub fn cross(&self, config: &mut Config) -> u64
        requires good { IsConfig (rotary_circuit self.now.net) config.old }
        requires entering { CanCross 0 self.now.rows config.old }
        ensures crossed { (i : ℕ) (marked from_east : Bool) → IsEntering 0 self.now.rows i marked from_east config.old
            → IsCrossing (rotary_circuit self.now.net) 0 self.now.rows i marked from_east result config.old config.new }
        ensures left { (i : ℕ) (marked from_east : Bool) → IsEntering 0 self.now.rows i marked from_east config.old
            → config.new.place ≡ Left i (exit_side marked) }
        ensures good { IsConfig (rotary_circuit self.now.net) config.new }
    {
        cross_in(&self.net, config, 0, self.rows)
    }

    // The column at rest with the signal about to enter this row, counted from 1, by this port.
    fn at_side(&self, alloc: Global, row: u32, side: u32) -> Result<Config, NoMemory>
        requires first { 1 ≤ row }
        requires last { row ≤ self.now.rows }
        requires side { side < 4 }
        ensures start { IfOk result (λ c. c ≡ start_at self.now.rows self.now.marked row side) }
        ensures good { IfOk result (IsConfig (rotary_circuit self.now.net)) }
    {
        let states = resting(alloc, self.rows, self.marked)?;
        Ok(Config {
            states: States::new(states),
            place: Place::Enter {
                element: row - 1,
                line: side,
            },
            steps: 0,
        })
    }
}

// The bars of a column at rest: vertical in all rows, and the mark in the bottom: horizontal if the column is marked.
fn resting(alloc: Global, rows: u32, marked: bool) -> Result<Vec<u32>, NoMemory>
    ensures { IfOk result (λ v. v.items ≡ replicate rows 1 ++ bar marked ∷ []) }
{
    let mut states = vec![in alloc; VERTICAL; rows as usize]?;
    states.push(if marked { HORIZONTAL } else { VERTICAL })?;
    Ok(states)
}
