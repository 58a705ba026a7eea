//! Scripts on a packed net.

ghost use Rattle.std.specs.Prelude.{◌≡◌, ◌<◌, length};
ghost use Rattle.bn_netlist_laws.specs.Sentences.{line_of_place};

use crate::view_text::view_text;
use bn_circuits::{Place, Quiet, States};
use bn_lists::NoMemory;
use bn_packed::{Direction, Packed};
use bn_reply::push;
use bn_session::Playable;
use std::alloc::Global;

// The states of the bars of the text with which a walk began, in the order of the elements.
#[derive(Drop)]
pub(crate) struct TextBars {
    pub(crate) states: States,
}

// The number of elements, and the place of the signal, which is a port of one of them.
pub(crate) fn elements_and_place(packed: &Packed) -> (u32, Place)
    ensures elements { result.0 ≡ length packed.now.net.elements }
    ensures place { result.1 ≡ packed.now.config.place }
    ensures line { (line_of_place result.1).line < 4 }
{
    (packed.len(), packed.place())
}

impl Playable<TextBars> for Packed {
    ghost use Rattle.bn_circuits.specs.RotaryNets.{rotary_circuit};
    ghost use Rattle.std.specs.Prelude.{refl};
    ghost use Rattle.bn_session.specs.Plays.{given};
    ghost use Rattle.bn_reply_walks.specs.WalkReply.{no_moment};
    ghost use Rattle.bn_reply_walks.specs.WalkView.{walk_view};
    ghost use Rattle.bn_reply_walks.specs.Walking.{AreBarsOf, IsSameNet, bars_stay, net_again, net_circuit, net_itself};

    ghost circuit = { λ p. rotary_circuit p.net };

    ghost config = { λ p. p.config };

    ghost moment = { λ p. no_moment };

    ghost shown = { λ p bars. given (walk_view bars.states) };

    ghost allows = { λ p bars. AreBarsOf p bars.states };

    ghost same = { IsSameNet };

    fn place(&self) -> Place {
        let (_, place) = elements_and_place(self);
        place
    }

    fn steps(&self) -> u64 {
        self.steps()
    }

    fn moment(&self) -> Option<u32> {
        None
    }

    fn step(&mut self, direction: Direction) -> bool {
        self.run_along(direction, 1, &mut Quiet) == 1
    }

    fn run(&mut self, direction: Direction, count: u64) {
        self.run_along(direction, count, &mut Quiet);
    }

    fn show(&self, alloc: Global, writer: &TextBars, out: &mut Vec<u8>) -> Result<(), NoMemory> {
        let text = view_text(alloc, self, &writer.states)?;
        push(out, text.as_slice())
    }

    ghost itself = { net_itself };

    ghost again = { net_again };

    ghost circuits = { net_circuit };

    ghost moments = { λ p q same. refl };

    ghost shows = { λ p q bars c text same shown. shown };

    ghost keeps = { λ p q bars same kept. bars_stay p q bars.states same kept };
}
