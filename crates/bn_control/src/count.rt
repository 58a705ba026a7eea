//! The number of a control's states: each state is counted at the first quadruple that shows it.
ghost use Rattle.std.specs.Prelude.{◌≡◌, ◌<◌, ◌≤◌, ◌+◌, ◌*◌, ℕ, suc, length, List, Some, slice_get};
ghost use Rattle.bn_network.specs.Controls.{ControlState, IsNumbering};
ghost use Rattle.bn_control.specs.Controlled.{IsWithinLimits};
ghost use Rattle.bn_control.specs.Names.{listed};
ghost use Rattle.bn_control.specs.Shown.{IsCount, IsReadState, IsWriteState, shifts_in, ShowsRead};
ghost use Rattle.bn_control.specs.Shown.{ShowsShift, ShowsWrite, Shows, IsShownBefore, IsNew, IsOpenBelow};

use crate::make::MOST_QUADRUPLES;
use crate::name::Symbols;
use crate::names::is_left;
use crate::shown::{is_read_before, is_written_before, symbols, written};
use bn_machine::Shift;
use bn_quad::{Act, Quad, QuadMachine};

/// The number of states of the control of a machine of quadruples. It takes no memory.
pub fn state_count(machine: &QuadMachine) -> u32
    requires { IsWithinLimits machine.now }
    ensures { (names : List ControlState) → IsNumbering machine.now names → result ≡ length names }
{
    let shown = shown_count(machine.quads());
    2 + open_count(machine) + shown
}

// The number of states that are not final and that no quadruple leaves.
fn open_count(machine: &QuadMachine) -> u32
    ensures open { IsCount (IsOpenBelow machine.now machine.now.states) result }
    ensures few { result ≤ machine.now.states }
{
    let mut count = 0;
    for state in 0..machine.states() {
        if state != machine.final_state() && !is_left(machine.quads(), state) {
            count += 1;
        }
    }
    count
}

// The number of the control's states that the quadruples show.
fn shown_count(quads: &[Quad]) -> u32
    requires few { length quads.now ≤ MOST_QUADRUPLES }
    ensures shown { IsCount (IsShownBefore quads.now (length quads.now)) result }
    ensures few { result ≤ 9 * length quads.now }
{
    let mut count = 0;
    for index in 0..quads.len() {
        count += new_states(quads, index);
    }
    count
}

// The number of states that this quadruple shows and no earlier one shows.
fn new_states(quads: &[Quad], index: usize) -> u32
    requires inside { index < length quads.now }
    ensures new { (quad : _) → slice_get quads.now index ≡ Some quad
        → IsCount (IsNew quads.now index (Shows (suc index) quad)) result }
    ensures few { result ≤ 9 }
{
    let quad = quads[index];
    new_reads(quads, index, &quad) + shift_count(&quad) + new_writes(quads, index, &quad)
}

// The number of the quadruple's reads that are new.
fn new_reads(quads: &[Quad], index: usize, quad: &Quad) -> u32
    requires inside { index < length quads.now }
    ensures new { IsCount (IsNew quads.now index (ShowsRead quad.now)) result }
    ensures few { result ≤ 3 }
{
    let [one, two, three] = quad.read;
    new_read(quads, index, quad.state, symbols(None, None), one)
        + new_read(quads, index, quad.state, symbols(one, None), two)
        + new_read(quads, index, quad.state, symbols(one, two), three)
}

// 1 for a read that is new, otherwise 0.
fn new_read(quads: &[Quad], index: usize, from: u32, before: Symbols, read: Option<u32>) -> u32
    requires inside { index < length quads.now }
    ensures new { IsCount (IsNew quads.now index (IsReadState from (listed before) read)) result }
    ensures few { result ≤ 1 }
{
    if read.is_some() && !is_read_before(quads, index, from, before) {
        1
    } else {
        0
    }
}

// The number of tapes that are shifted, other than by 0.
fn shift_count(quad: &Quad) -> u32
    ensures shifts { (n : ℕ) → IsCount (ShowsShift n quad.now) result }
    ensures few { result ≤ 3 }
{
    let [one, two, three] = quad.act;
    shifts_in(one) + shifts_in(two) + shifts_in(three)
}

// 1 for a shift other than by 0, otherwise 0.
fn shifts_in(act: Act) -> u32
    ensures { result ≡ shifts_in act }
{
    match act {
        Act::Shift(Shift::Left | Shift::Right) => 1,
        Act::Shift(Shift::Stay) | Act::Write(_) => 0,
    }
}

// The number of the quadruple's writes that are new.
fn new_writes(quads: &[Quad], index: usize, quad: &Quad) -> u32
    requires inside { index < length quads.now }
    ensures new { IsCount (IsNew quads.now index (ShowsWrite quad.now)) result }
    ensures few { result ≤ 3 }
{
    let [one, two, three] = quad.act;
    let (one, two, three) = (written(one), written(two), written(three));
    new_write(quads, index, quad.next, 1, symbols(None, None), one)
        + new_write(quads, index, quad.next, 2, symbols(one, None), two)
        + new_write(quads, index, quad.next, 3, symbols(two, one), three)
}

// 1 for a write that is new, otherwise 0.
fn new_write(
    quads: &[Quad],
    index: usize,
    to: u32,
    tape: u32,
    rest: Symbols,
    written: Option<u32>,
) -> u32
    requires inside { index < length quads.now }
    ensures new { IsCount (IsNew quads.now index (IsWriteState to tape (listed rest) written)) result }
    ensures few { result ≤ 1 }
{
    if written.is_some() && !is_written_before(quads, index, to, tape, rest) {
        1
    } else {
        0
    }
}
