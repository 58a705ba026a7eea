//! One move of a sequential machine.

/// A move from state `state` and input port `line` to state `next` and output port `out`; all are counted from 0.
#[derive(Clone, Copy, PartialEq, Eq, Debug)]
pub struct RsmMove {
    /// The state in which the move is made.
    pub state: u32,
    /// The input port by which the signal enters.
    pub line: u32,
    /// The state after the move.
    pub next: u32,
    /// The output port by which the signal leaves.
    pub out: u32,
}

impl RsmMove {
    ghost use Rattle.std.specs.Prelude.{◌≡◌};
    ghost use Rattle.bn_rsm.specs.Faults.{turned};

    // The inverse move: its two pairs exchanged.
    pub(crate) fn turned(&self) -> RsmMove
        ensures { result ≡ turned self.now }
    {
        RsmMove {
            state: self.next,
            line: self.out,
            next: self.state,
            out: self.line,
        }
    }
}
