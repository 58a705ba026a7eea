//! Steps of the signal, one after another, without a check of the clock at each.

ghost use Rattle.std.specs.Prelude.{◌≡◌, ◌⊎◌, ◌+◌, ◌-◌, ◌<◌, ◌≤◌, true};
ghost use Rattle.bn_circuits.specs.Circuits.{IsCircuit, IsConfig, IsStuck, IsFirst, clock};
ghost use Rattle.bn_circuits.specs.declared.place.Place.TheVariants.{Enter, Left};
ghost use Rattle.bn_circuits.specs.Walking.{HasWalked, HasWalkedBack};
ghost use Rattle.bn_circuits.specs.RotaryNets.{rotary_circuit};
ghost use Rattle.bn_packed.specs.PackedNets.{config_at};
ghost use Rattle.bn_packed.specs.Stopping.{PassesBy, stops_at};

use crate::bars::Bars;
use crate::cells::{Cell, cell_at, line_number, line_of, opposite};
use crate::signal::Signal;
use crate::stop::{Nowhere, Stop};
use crate::wiring::Wiring;
use bn_circuits::{Line, Place, Watch};

/// Makes at most `count` steps, which the clock admits, and reports the place after each step to the watch.
pub(crate) fn walk<C: Cell, W: Watch>(
    wiring: &Wiring<C>,
    bars: &mut Bars,
    signal: Signal,
    count: u64,
    watch: &mut W,
) -> Signal
    requires good { IsConfig (rotary_circuit wiring.now.net) (config_at bars.old signal.place signal.steps) }
    requires room { signal.steps + count ≤ clock }
    ensures forward { signal.steps ≤ result.steps }
    ensures limit { result.steps ≤ signal.steps + count }
    ensures walked { HasWalked (rotary_circuit wiring.now.net)
        (config_at bars.old signal.place signal.steps) (config_at bars.new result.place result.steps)
        (result.steps - signal.steps) (W.told watch.old) (W.told watch.new) }
    ensures ended { result.steps < signal.steps + count
        → IsStuck (rotary_circuit wiring.now.net) (config_at bars.new result.place result.steps) }
{
    walk_until(wiring, bars, signal, count, &Nowhere, watch)
}

/// Makes at most `count` steps, which the clock admits, and reports the place after each step to the watch. The walk
/// ends early if the signal is about to enter a port of `stop`.
pub(crate) fn walk_until<C: Cell, S: Stop, W: Watch>(
    wiring: &Wiring<C>,
    bars: &mut Bars,
    signal: Signal,
    count: u64,
    stop: &S,
    watch: &mut W,
) -> Signal
    requires good { IsConfig (rotary_circuit wiring.now.net) (config_at bars.old signal.place signal.steps) }
    requires room { signal.steps + count ≤ clock }
    ensures forward { signal.steps ≤ result.steps }
    ensures limit { result.steps ≤ signal.steps + count }
    ensures walked { HasWalked (rotary_circuit wiring.now.net)
        (config_at bars.old signal.place signal.steps) (config_at bars.new result.place result.steps)
        (result.steps - signal.steps) (W.told watch.old) (W.told watch.new) }
    ensures ended { result.steps < signal.steps + count
        → IsStuck (rotary_circuit wiring.now.net) (config_at bars.new result.place result.steps)
        ⊎ (stops_at (S.stops stop.now) result.place ≡ true) }
    ensures between { PassesBy (rotary_circuit wiring.now.net) (S.stops stop.now) (result.steps - signal.steps)
        (config_at bars.old signal.place signal.steps) (config_at bars.new result.place result.steps) }
    ensures moves { 0 < count
        → signal.steps < result.steps
        ⊎ IsStuck (rotary_circuit wiring.now.net) (config_at bars.old signal.place signal.steps) }
{
    let Place::Enter { element, line } = signal.place else {
        return signal;
    };
    let ahead = wiring.ahead();
    let mut number = line_number(Line { element, line });
    for made in 0..count {
        let from = bars.cross(number);
        let cell = cell_at(ahead, from);
        if cell.is_loose() {
            let place = left_by(opposite(line_of(from)));
            watch.enter(&place);
            return Signal {
                place,
                steps: signal.steps + made + 1,
            };
        }
        let to = cell.number();
        let at_line = line_of(to);
        watch.enter(&entering(at_line));
        number = to;
        if stop.stops(at_line) {
            return Signal {
                place: entering(at_line),
                steps: signal.steps + made + 1,
            };
        }
    }
    Signal {
        place: entering(line_of(number)),
        steps: signal.steps + count,
    }
}

/// Undoes at most `count` steps, no more than the signal has made, and reports the place after each step to the watch.
/// The ends behind (`Wiring::behind`) must be built.
pub(crate) fn walk_back<C: Cell, W: Watch>(
    wiring: &Wiring<C>,
    bars: &mut Bars,
    signal: Signal,
    count: u64,
    watch: &mut W,
) -> Signal
    requires circuit { IsCircuit (rotary_circuit wiring.now.net) }
    requires made { wiring.now.goes_back ≡ true }
    requires good { IsConfig (rotary_circuit wiring.now.net) (config_at bars.old signal.place signal.steps) }
    requires counted { count ≤ signal.steps }
    ensures backward { result.steps ≤ signal.steps }
    ensures limit { signal.steps ≤ result.steps + count }
    ensures walked { HasWalkedBack (rotary_circuit wiring.now.net)
        (config_at bars.old signal.place signal.steps) (config_at bars.new result.place result.steps)
        (signal.steps - result.steps) (W.told watch.old) (W.told watch.new) }
    ensures ended { signal.steps < result.steps + count
        → IsFirst (rotary_circuit wiring.now.net) (config_at bars.new result.place result.steps) }
{
    match signal.place {
        Place::Enter { element, line } => {
            let to = Line { element, line };
            walk_back_from(wiring, bars, to, signal.steps, count, watch)
        }
        Place::Left { element, line } => {
            if count == 0 {
                return signal;
            }
            let to = Line {
                element,
                line: bars.cross_back(element, line),
            };
            watch.enter(&entering(to));
            walk_back_from(wiring, bars, to, signal.steps - 1, count - 1, watch)
        }
    }
}

// The same, for a signal that is about to enter this port after this many steps.
fn walk_back_from<C: Cell, W: Watch>(
    wiring: &Wiring<C>,
    bars: &mut Bars,
    to: Line,
    steps: u64,
    count: u64,
    watch: &mut W,
) -> Signal
    requires made { wiring.now.goes_back ≡ true }
    requires good { IsConfig (rotary_circuit wiring.now.net) (config_at bars.old (Enter to.element to.line) steps) }
    requires counted { count ≤ steps }
    ensures backward { result.steps ≤ steps }
    ensures limit { steps ≤ result.steps + count }
    ensures walked { HasWalkedBack (rotary_circuit wiring.now.net)
        (config_at bars.old (Enter to.element to.line) steps) (config_at bars.new result.place result.steps)
        (steps - result.steps) (W.told watch.old) (W.told watch.new) }
    ensures ended { steps < result.steps + count
        → IsFirst (rotary_circuit wiring.now.net) (config_at bars.new result.place result.steps) }
{
    let behind = wiring.behind();
    let mut number = line_number(to);
    for made in 0..count {
        let cell = cell_at(behind, number);
        if cell.is_loose() {
            return Signal {
                place: entering(line_of(number)),
                steps: steps - made,
            };
        }
        let from = cell.number();
        number = bars.cross_back_at(from);
        watch.enter(&entering(line_of(number)));
    }
    Signal {
        place: entering(line_of(number)),
        steps: steps - count,
    }
}

// The signal is about to enter this port.
fn entering(to: Line) -> Place
    ensures { result ≡ Enter to.element to.line }
{
    Place::Enter {
        element: to.element,
        line: to.line,
    }
}

// The signal has left by this port.
fn left_by(from: Line) -> Place
    ensures { result ≡ Left from.element from.line }
{
    Place::Left {
        element: from.element,
        line: from.line,
    }
}
