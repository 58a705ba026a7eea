//! Scripts on the circuit of a machine.

use crate::playable::Playable;
use crate::shows::Shows;
use bn_board::Board;
use bn_circuits::Place;
use bn_lists::NoMemory;
use bn_packed::Direction;
use std::alloc::Global;

impl<W: Shows> Playable<W> for Board {
    ghost use Rattle.bn_circuits.specs.RotaryNets.{rotary_circuit};
    ghost use Rattle.bn_boards.specs.Layouts.{moment_at};
    ghost use Rattle.bn_board.specs.Flattened.{IsSameBoard};
    ghost use Rattle.bn_session.specs.Boards.{shown_on};
    ghost use Rattle.bn_session.specs.Same.{same_itself, same_again, same_circuit, same_moments, same_shown};

    ghost circuit = { λ b. rotary_circuit b.net };

    ghost config = { λ b. b.config };

    ghost moment = { λ b. moment_at b.layout };

    ghost shown = { λ b w. shown_on (W.text w) b };

    ghost allows = { λ b w. W.allows w b };

    ghost same = { IsSameBoard };

    fn place(&self) -> Place {
        self.place()
    }

    fn steps(&self) -> u64 {
        self.steps()
    }

    fn moment(&self) -> Option<u32> {
        self.moment()
    }

    fn step(&mut self, direction: Direction) -> bool {
        self.step_along(direction)
    }

    fn run(&mut self, direction: Direction, count: u64) {
        match direction {
            Direction::Forward => self.run(count),
            Direction::Backward => self.run_back(count),
        };
    }

    fn show(&self, alloc: Global, writer: &W, out: &mut Vec<u8>) -> Result<(), NoMemory> {
        writer.show(alloc, self, out)
    }

    ghost itself = { same_itself };

    ghost again = { same_again };

    ghost circuits = { same_circuit };

    ghost moments = { same_moments };

    ghost shows = { λ a b w c text same. same_shown (W.text w) a b c text same };

    ghost keeps = { λ a b w same allowed. W.keeps w a b same allowed };
}
