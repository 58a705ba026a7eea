//! A run of a circuit for a greatest number of steps.

ghost use Rattle.std.specs.Prelude.{◌≡◌, ◌+◌, ◌-◌, is_some};
ghost use Rattle.bn_circuits.specs.Counting.{one_if};
ghost use Rattle.bn_circuits.specs.Stepping.{places, run};
ghost use Rattle.bn_circuits.specs.Watching.{Hears};
ghost use Rattle.bn_circuits.specs.RotaryNets.{rotary_circuit};
ghost use Rattle.bn_boards.specs.Layouts.{moments};
ghost use Rattle.bn_board.specs.Flattened.{IsSameBoard};

use bn_board::Board;
use bn_circuits::Watch;

/// Runs a circuit for at most this many steps, and returns the number of moments from its configuration on, including
/// that configuration, less one. The place after each step is reported to the watch. It takes no memory.
pub(crate) fn run_for<W: Watch>(board: &mut Board, most_steps: u64, watch: &mut W) -> u64
    ensures steps { result
        ≡ moments board.old.layout (rotary_circuit board.old.net) most_steps board.old.config - 1 }
    ensures run { board.new.config ≡ run (rotary_circuit board.old.net) board.old.config most_steps }
    ensures same { IsSameBoard board.old board.new }
    ensures told { Hears (W.told watch.old) (places (rotary_circuit board.old.net) most_steps board.old.config)
        (W.told watch.new) }
{
    let first = board.moment();
    let moments = board.run_counting(most_steps, watch);
    less_one(first, moments)
}

// The number of moments less one, where this many follow the first configuration, which may be one itself.
fn less_one(first: Option<u32>, moments: u64) -> u64
    ensures { result ≡ one_if (is_some first) + moments - 1 }
{
    match first {
        Some(_) => moments,
        None => moments.saturating_sub(1),
    }
}
