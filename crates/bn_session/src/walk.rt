//! Watched walks on a circuit.

ghost use Rattle.std.specs.Prelude.{◌≡◌, None, Some, MatchOption};
ghost use Rattle.bn_packed.specs.Running.{run_along};
ghost use Rattle.bn_session.specs.Plays.{IsStop, stops, label_that_holds};
ghost use Rattle.bn_session.specs.Walks.{once_along, walk};
ghost use Rattle.bn_circuits.specs.declared.config.Config.{Config};

use crate::breaks::Breaks;
use crate::playable::Playable;
use bn_packed::Direction;

// Steps in this direction until a breakpoint holds, no step is possible, or this many are made.
pub(crate) fn go<W, C: Playable<W>>(
    circuit: &mut C,
    breaks: &Breaks,
    direction: Direction,
    count: u64,
)
    ensures stop { IsStop (stops (C.moment circuit.old) breaks.now)
        (run_along direction (C.circuit circuit.old) (C.config circuit.old)) count (C.config circuit.new) }
    ensures same { C.same circuit.old circuit.new }
{
    walk_on::<W, C>(circuit, breaks, direction, count)
}

// As `go`.
fn walk_on<W, C: Playable<W>>(circuit: &mut C, breaks: &Breaks, direction: Direction, count: u64)
    ensures walked { C.config circuit.new ≡ walk (stops (C.moment circuit.old) breaks.now)
        (once_along direction (C.circuit circuit.old)) count (C.config circuit.old) }
    ensures same { C.same circuit.old circuit.new }
{
    for _made in 0..count {
        if !circuit.step(direction) || breaks_at::<W, C>(circuit, breaks) {
            return;
        }
    }
}

// Whether a breakpoint holds at the circuit's configuration.
fn breaks_at<W, C: Playable<W>>(circuit: &C, breaks: &Breaks) -> bool
    ensures { result ≡ stops (C.moment circuit.now) breaks.now (C.config circuit.now) }
{
    breaks.some_holds(circuit.place(), circuit.moment())
}

// The label that is reported at the end of a walk that began after this many steps.
pub(crate) fn named<'a, W, C: Playable<W>>(
    circuit: &C,
    breaks: &'a Breaks,
    steps: u64,
) -> Option<&'a [u8]>
    ensures { (c : Config) → steps ≡ c.steps → MatchOption result
        (label_that_holds (C.moment circuit.now) breaks.now c (C.config circuit.now) ≡ None)
        (λ label. label_that_holds (C.moment circuit.now) breaks.now c (C.config circuit.now) ≡ Some label.now) }
{
    if circuit.steps() == steps {
        return None;
    }
    breaks.first_label(circuit.place(), circuit.moment())
}
