//! The writer of the layers of a circuit.

ghost use Rattle.std.specs.Prelude.{OnOk, OnErr};

use bn_board::Board;
use bn_lists::NoMemory;
use std::alloc::Global;

/// A writer that shows a circuit. It has two models: the texts that it may show of a circuit, and whether it can show
/// one. The second does not depend on the configuration of the circuit in its run.
pub trait Shows {
    ghost use Rattle.std.specs.Prelude.{ℕ, List};
    ghost use Rattle.bn_board.specs.Flattened.{Flattened, IsSameBoard};
    ghost use Rattle.bn_session.specs.Boards.{Grows, GrowsByFront};

    /// Whether this is a text of a circuit.
    ghost text: { Self → Flattened → List ℕ → Type 0 };

    /// Whether a circuit can be shown.
    ghost allows: { Self → Flattened → Type 0 };

    /// Appends a text of a circuit. After `NoMemory` a prefix of one was appended.
    fn show(&self, alloc: Global, board: &Board, out: &mut Vec<u8>) -> Result<(), NoMemory>
        requires { allows self.now board.now }
        ensures shown { OnOk result (Grows (text self.now board.now) out.old.items out.new.items) }
        ensures cut { OnErr result (GrowsByFront (text self.now board.now) out.old.items out.new.items) };

    /// A circuit that can be shown can be shown anywhere in its run.
    ghost keeps: { (x : Self) (b c : Flattened) → IsSameBoard b c → allows x b → allows x c };
}
