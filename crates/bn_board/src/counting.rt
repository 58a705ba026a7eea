//! Runs of a circuit that count its moments.

ghost use Rattle.std.specs.Prelude.{◌≡◌, ◌+◌, ◌<◌, ◌^◌};
ghost use Rattle.bn_circuits.specs.Counting.{tally, one_if};
ghost use Rattle.bn_circuits.specs.Stepping.{run, places};
ghost use Rattle.bn_circuits.specs.Watching.{Hears};
ghost use Rattle.bn_circuits.specs.RotaryNets.{rotary_circuit};
ghost use Rattle.bn_boards.specs.Layouts.{is_moment};
ghost use Rattle.bn_board.specs.Flattened.{IsSameBoard};

use crate::board::Board;
use bn_circuits::Watch;

impl Board {
    /// Makes at most `e` element steps, as `run` does, reports the place after each step to the watch, and returns
    /// after how many of them the circuit was at the moment of some state. Allocates no memory.
    pub fn run_counting<W: Watch>(&mut self, e: u64, watch: &mut W) -> u64
        ensures moments { result ≡ tally (is_moment self.old.layout) (rotary_circuit self.old.net) e self.old.config }
        ensures run { self.new.config ≡ run (rotary_circuit self.old.net) self.old.config e }
        ensures same { IsSameBoard self.old self.new }
        ensures told { Hears (W.told watch.old) (places (rotary_circuit self.old.net) e self.old.config)
            (W.told watch.new) }
    {
        let rows = self.layout().first_rows();
        let mut moments = 0;
        let mut made = 0;
        while made < e {
            let steps = self.run_until(e - made, &rows, watch);
            if steps == 0 {
                return moments;
            }
            moments = self.count_moment(moments);
            made += steps;
        }
        moments
    }

    // This number of moments, plus one if the circuit is at a moment.
    fn count_moment(&self, moments: u64) -> u64
        requires { moments + 1 < 2 ^ 64 }
        ensures { result ≡ moments + one_if (is_moment self.now.layout self.now.config) }
    {
        match self.moment() {
            Some(_) => moments + 1,
            None => moments,
        }
    }
}
