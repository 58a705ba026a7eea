//! The rotary element.

use crate::element::Element;

/// The state of a rotary element whose bar lies along west and east.
pub const HORIZONTAL: u32 = 0;

/// The state of a rotary element whose bar lies along north and south.
pub const VERTICAL: u32 = 1;

/// The north port of a rotary element, in and out.
pub const NORTH: u32 = 0;

/// The east port of a rotary element, in and out.
pub const EAST: u32 = 1;

/// The south port of a rotary element, in and out.
pub const SOUTH: u32 = 2;

/// The west port of a rotary element, in and out.
pub const WEST: u32 = 3;

/// The rotary element: two states, four input ports and four output ports. A signal along the bar goes straight on; a
/// signal across the bar turns right and turns the bar. Every pair has a move. (The idea and the name are from Morita
/// 2017; the names of ports and states are this project's own profile.)
#[derive(Clone, Copy, Debug)]
pub struct Rotary;

impl Element for Rotary {
    ghost use Rattle.bn_element.specs.Rotary.{rotary};
    ghost use Rattle.bn_element.specs.Reversible.{rotary-IsReversible};

    ghost table = { λ _. rotary };

    ghost reversible = { λ _. rotary-IsReversible };

    fn lines_in(&self) -> u32 {
        4
    }

    fn lines_out(&self) -> u32 {
        4
    }

    fn states(&self) -> u32 {
        2
    }

    fn go(&self, state: u32, line: u32) -> Option<(u32, u32)> {
        Some(match (state, line) {
            (HORIZONTAL, NORTH) => (VERTICAL, WEST),
            (HORIZONTAL, EAST) => (HORIZONTAL, WEST),
            (HORIZONTAL, SOUTH) => (VERTICAL, EAST),
            (HORIZONTAL, WEST) => (HORIZONTAL, EAST),
            (VERTICAL, NORTH) => (VERTICAL, SOUTH),
            (VERTICAL, EAST) => (HORIZONTAL, NORTH),
            (VERTICAL, SOUTH) => (VERTICAL, NORTH),
            (VERTICAL, WEST) => (HORIZONTAL, SOUTH),
            _ => unreachable!(),
        })
    }

    fn back(&self, state: u32, line: u32) -> Option<(u32, u32)> {
        Some(match (state, line) {
            (VERTICAL, WEST) => (HORIZONTAL, NORTH),
            (HORIZONTAL, WEST) => (HORIZONTAL, EAST),
            (VERTICAL, EAST) => (HORIZONTAL, SOUTH),
            (HORIZONTAL, EAST) => (HORIZONTAL, WEST),
            (VERTICAL, SOUTH) => (VERTICAL, NORTH),
            (HORIZONTAL, NORTH) => (VERTICAL, EAST),
            (VERTICAL, NORTH) => (VERTICAL, SOUTH),
            (HORIZONTAL, SOUTH) => (VERTICAL, WEST),
            _ => unreachable!(),
        })
    }
}
