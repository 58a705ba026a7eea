//! The floor plan of a net.

ghost use Rattle.std.specs.Prelude.{◌≤◌, length, IfOk};
ghost use Rattle.bn_plan.specs.Plans.{IsFloorPlan};

use crate::floor::Plan;
use crate::positions::{MOST_PLANNED, POSITIONS};
use crate::sweep::Sweep;
use bn_circuits::Net;
use bn_element::Rotary;
use bn_lists::NoMemory;
use std::alloc::Global;

/// The floor plan of a net of at most `MOST_PLANNED` elements. The elements lie side by side, and element E takes the
/// positions 8E to 8E + 7: its outputs north, east, south and west, and then its inputs in the same order. A wire
/// covers all positions from its lesser to its greater end. In the order of their lesser ends, each wire takes the
/// least track, counted from 1, on which every earlier wire ends before this wire begins. (This project's own
/// profile.)
pub fn plan(alloc: Global, net: &Net<Rotary>) -> Result<Plan, NoMemory>
    requires { length net.now.elements ≤ MOST_PLANNED }
    ensures { IfOk result (IsFloorPlan net.now.wires) }
{
    let positions = POSITIONS * net.len();
    let mut sweep = Sweep::new(alloc, positions)?;
    for position in 0..positions {
        sweep.go_past(net, position)?;
    }
    Ok(sweep.into_plan())
}
