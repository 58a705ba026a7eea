//! Columns of a net in a configuration.

ghost use Rattle.std.specs.Prelude.{◌≡◌, ◌+◌, ◌^◌, ◌<◌, ◌&&◌, ℕ, length, MatchOption};
ghost use Rattle.bn_circuits.specs.Circuits.{line_at, target};
ghost use Rattle.bn_netlist_laws.specs.Columns.{IsColumnAt, rungs, inner_wires, leads_to, lead_all, are_upright};
ghost use Rattle.bn_netlist_laws.specs.Columns.{is_loose};
ghost use Rattle.bn_netlist_laws.specs.Columns.{is_column_at, column_at};
ghost use Rattle.bn_netlist_laws.specs.Spelling.{circuit_of};

use crate::spellable::Spellable;
use bn_circuits::Line;
use bn_element::{EAST, NORTH, SOUTH, VERTICAL, WEST};

/// The number of rows of the column that begins at this element; `None` exactly if no column begins there. The call
/// takes no memory. (This project's own profile.)
pub fn column_rows<C: Spellable>(config: &C, element: u32) -> Option<u32>
    requires states { length (C.spelling config.now).config.states ≡ (C.spelling config.now).elements }
    ensures { MatchOption result
        ((k : ℕ) → IsColumnAt (circuit_of (C.spelling config.now)) (C.spelling config.now).config.states element k
        → ⊥)
        (IsColumnAt (circuit_of (C.spelling config.now)) (C.spelling config.now).config.states element) }
{
    rows_at(config, element)
}

// The same as `column_rows`, by the function of the definitions.
fn rows_at<C: Spellable>(config: &C, element: u32) -> Option<u32>
    requires states { length (C.spelling config.now).config.states ≡ (C.spelling config.now).elements }
    ensures { result ≡ column_at (C.spelling config.now).elements (C.spelling config.now).wires
        (C.spelling config.now).config.states element }
{
    if element >= config.len() {
        return None;
    }
    let bottom = config.target(Line {
        element,
        line: NORTH,
    })?;
    if bottom.element <= element {
        return None;
    }
    let rows = bottom.element - element;
    if !is_column(config, element, rows) {
        return None;
    }
    Some(rows)
}

// Whether a column of this many rows begins at this element.
fn is_column<C: Spellable>(config: &C, first: u32, rows: u32) -> bool
    requires states { length (C.spelling config.now).config.states ≡ (C.spelling config.now).elements }
    requires within { first + rows < (C.spelling config.now).elements }
    requires fits { first + rows < 2 ^ 32 }
    ensures { result ≡ is_column_at (C.spelling config.now).elements (C.spelling config.now).wires
        (C.spelling config.now).config.states first rows }
{
    if !has_rungs(config, first, rows) {
        return false;
    }
    if !has_ends(config, first, rows) {
        return false;
    }
    if !is_free(config, first + rows) {
        return false;
    }
    is_standing(config, first, rows)
}

// Whether each of the first rows leads down and up as in a column.
fn has_rungs<C: Spellable>(config: &C, first: u32, rows: u32) -> bool
    requires within { first + rows < (C.spelling config.now).elements }
    requires fits { first + rows < 2 ^ 32 }
    ensures { result ≡ lead_all (C.spelling config.now).wires (rungs first rows) }
{
    for row in 0..rows {
        if !has_rung(config, first + row) {
            return false;
        }
    }
    true
}

// Whether this element and the next lead down and up as rows of a column.
fn has_rung<C: Spellable>(config: &C, row: u32) -> bool
    requires within { row + 1 < (C.spelling config.now).elements }
    requires fits { row + 1 < 2 ^ 32 }
    ensures { result ≡ (leads_to (target (C.spelling config.now).wires (line_at row 2)) (line_at (row + 1) 0)
        && leads_to (target (C.spelling config.now).wires (line_at (row + 1) 0)) (line_at row 2)) }
{
    leads(config, row, SOUTH, row + 1, NORTH) && leads(config, row + 1, NORTH, row, SOUTH)
}

// Whether the three wires of the bottom and the top row lead as in a column.
fn has_ends<C: Spellable>(config: &C, first: u32, rows: u32) -> bool
    requires within { first + rows < (C.spelling config.now).elements }
    requires fits { first + rows < 2 ^ 32 }
    ensures { result ≡ ((leads_to (target (C.spelling config.now).wires (line_at (first + rows) 2))
        (line_at (first + rows) 2)
        && leads_to (target (C.spelling config.now).wires (line_at (first + rows) 3)) (line_at first 0))
        && leads_to (target (C.spelling config.now).wires (line_at first 0)) (line_at (first + rows) 1)) }
{
    let bottom = first + rows;
    leads(config, bottom, SOUTH, bottom, SOUTH)
        && leads(config, bottom, WEST, first, NORTH)
        && leads(config, first, NORTH, bottom, EAST)
}

// Whether no wire leaves the east output of this element.
fn is_free<C: Spellable>(config: &C, element: u32) -> bool
    requires within { element < (C.spelling config.now).elements }
    ensures { result ≡ is_loose (target (C.spelling config.now).wires (line_at element 1)) }
{
    config
        .target(Line {
            element,
            line: EAST,
        })
        .is_none()
}

// Whether this output port leads to that input port.
fn leads<C: Spellable>(config: &C, from: u32, output: u32, to: u32, input: u32) -> bool
    requires within { from < (C.spelling config.now).elements }
    requires low { output < 4 }
    ensures { result ≡ leads_to (target (C.spelling config.now).wires (line_at from output)) (line_at to input) }
{
    match config.target(Line {
        element: from,
        line: output,
    }) {
        None => false,
        Some(end) => {
            end == Line {
                element: to,
                line: input,
            }
        }
    }
}

// Whether this many bars from this one on are vertical.
fn is_standing<C: Spellable>(config: &C, first: u32, rows: u32) -> bool
    requires within { first + rows < length (C.spelling config.now).config.states }
    requires fits { first + rows < 2 ^ 32 }
    ensures { result ≡ are_upright (C.spelling config.now).config.states first rows }
{
    for row in 0..rows {
        if config.bar(first + row) != VERTICAL {
            return false;
        }
    }
    true
}
