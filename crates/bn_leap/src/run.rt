//! Runs that make whole moves of banks at once.

ghost use Rattle.std.specs.Prelude.{◌≡◌, ◌<◌, ◌≤◌, ◌+◌, length};
ghost use Rattle.bn_circuits.specs.RotaryNets.{rotary_circuit};
ghost use Rattle.bn_circuits.specs.Circuits.{IsOutputOf, clock};
ghost use Rattle.bn_circuits.specs.Stepping.{places};
ghost use Rattle.bn_circuits.specs.Watching.{Hears};
ghost use Rattle.bn_packed.specs.Running.{IsLongestRun};
ghost use Rattle.bn_packed.specs.Stopping.{IsStoppedRun, passes_by};
ghost use Rattle.bn_leap.specs.Entries.{IsLeapable, IsAdvance, leapt};

use crate::entry::Banks;
use crate::leap::{Leap, leap_at};
use crate::passing::Passing;
use bn_circuits::{CLOCK, Line, Place, Quiet, Watch};
use bn_element::{HORIZONTAL, VERTICAL};
use bn_packed::{Direction, Nowhere, Packed, Stop};

/// Makes at most `e` element steps and returns how many, as `Packed::run` does, but makes each move of a bank at once
/// if the remaining steps and the clock admit it. Takes no memory.
pub fn run_leaping<B: Banks>(packed: &mut Packed, banks: &B, e: u64) -> u64
    requires { IsLeapable packed.old.net packed.old.config (B.has banks.now) }
    ensures net { packed.new.net ≡ packed.old.net }
    ensures ran { IsLongestRun Direction.Forward (rotary_circuit packed.old.net) e result packed.old.config
        packed.new.config }
{
    leap_until(packed, banks, e, &Nowhere)
}

/// Makes at most `e` element steps, as `Packed::run_until` does: the run stops after a step if the signal is about to
/// enter a port of `stop`. Reports the place after each step to the watch, and returns the number of steps made. If
/// the watch does not listen, each move of a bank is made at once if the remaining steps and the clock admit it and
/// the run does not stop within it. Takes no memory.
pub fn run_leaping_until<B: Banks, S: Passing, W: Watch>(
    packed: &mut Packed,
    banks: &B,
    e: u64,
    stop: &S,
    watch: &mut W,
) -> u64
    requires { IsLeapable packed.old.net packed.old.config (B.has banks.now) }
    ensures net { packed.new.net ≡ packed.old.net }
    ensures ran { IsStoppedRun (rotary_circuit packed.old.net) (S.stops stop.now) e result packed.old.config
        packed.new.config }
    ensures told { Hears (W.told watch.old) (places (rotary_circuit packed.old.net) result packed.old.config)
        (W.told watch.new) }
{
    if watch.listens() {
        packed.run_until(e, stop, watch)
    } else {
        leap_until(packed, banks, e, stop)
    }
}

// The same without a watch.
fn leap_until<B: Banks, S: Passing>(packed: &mut Packed, banks: &B, e: u64, stop: &S) -> u64
    requires { IsLeapable packed.old.net packed.old.config (B.has banks.now) }
    ensures net { packed.new.net ≡ packed.old.net }
    ensures ran { IsStoppedRun (rotary_circuit packed.old.net) (S.stops stop.now) e result packed.old.config
        packed.new.config }
{
    let mut made = 0;
    while made < e {
        let steps = advance(packed, banks, e - made, stop);
        if steps == 0 {
            return made;
        }
        made += steps;
        if !goes_on(packed, stop) {
            return made;
        }
    }
    made
}

// Makes one leap, if it fits; otherwise makes single steps, at least one if one can be made. Returns the number of
// steps.
fn advance<B: Banks, S: Passing>(packed: &mut Packed, banks: &B, most: u64, stop: &S) -> u64
    requires some { 0 < most }
    requires banks { IsLeapable packed.old.net packed.old.config (B.has banks.now) }
    ensures net { packed.new.net ≡ packed.old.net }
    ensures made { IsAdvance (rotary_circuit packed.old.net) (S.stops stop.now) most result packed.old.config
        packed.new.config }
{
    match leap_at(packed, banks, stop) {
        Some(leap) => {
            if leap.steps > most || leap.steps > CLOCK.saturating_sub(packed.steps()) {
                packed.run_until(most, stop, &mut Quiet)
            } else {
                make(packed, &leap);
                leap.steps
            }
        }
        None => packed.run_until(1, stop, &mut Quiet),
    }
}

// Makes a leap.
fn make(packed: &mut Packed, leap: &Leap)
    requires unmarked { leap.now.unmarked < length (rotary_circuit packed.old.net).tables }
    requires marked { leap.now.marked < length (rotary_circuit packed.old.net).tables }
    requires exit { IsOutputOf (rotary_circuit packed.old.net).tables leap.now.exit }
    requires room { packed.old.config.steps + leap.now.steps ≤ clock }
    ensures net { packed.new.net ≡ packed.old.net }
    ensures config { packed.new.config ≡ leapt (rotary_circuit packed.old.net) packed.old.config leap.now }
{
    packed.set_bar(leap.unmarked, VERTICAL);
    packed.set_bar(leap.marked, HORIZONTAL);
    packed.send(leap.exit, leap.steps);
}

// Whether the run can go on: the signal is about to enter a port that is not one of `stop`.
fn goes_on<S: Stop>(packed: &Packed, stop: &S) -> bool
    ensures { result ≡ passes_by (S.stops stop.now) packed.now.config.place }
{
    match packed.place() {
        Place::Enter { element, line } => !stop.stops(Line { element, line }),
        Place::Left { .. } => false,
    }
}
