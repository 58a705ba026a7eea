//! Quadruples as the program stores them.

ghost use Rattle.std.specs.Prelude.{◌≡◌};
ghost use Rattle.bn_machine.specs.Tape.{opposite};
ghost use Rattle.bn_quad.specs.Kept.{deed_of, read_of, act_of, turned_quad};
ghost use Rattle.bn_quad.specs.Quadruples.{turned_deed};

use bn_machine::Shift;

/// What a quadruple does on a tape: it writes this symbol, counted from 0, or shifts the head.
#[derive(Clone, Copy, PartialEq, Eq, Debug)]
pub enum Act {
    /// It writes this symbol.
    Write(u32),
    /// It shifts the head.
    Shift(Shift),
}

/// A quadruple of three tapes (Bennett 1973): in `state`, if the head scans the symbol in `read` on each tape that has
/// one, it does its actions, the first on tape 1, and goes to `next`. A tape without a symbol in `read` is not read.
/// States and symbols are counted from 0.
#[derive(Clone, Copy, PartialEq, Eq, Debug)]
pub struct Quad {
    /// The state in which it applies.
    pub state: u32,
    /// The symbol that the head of each tape scans, if that tape is read, tape 1 first.
    pub read: [Option<u32>; 3],
    /// What it does on each tape, tape 1 first.
    pub act: [Act; 3],
    /// The state that comes next.
    pub next: u32,
}

// The shift that undoes another one.
fn opposite(shift: Shift) -> Shift
    ensures { result ≡ opposite shift }
{
    match shift {
        Shift::Left => Shift::Right,
        Shift::Stay => Shift::Stay,
        Shift::Right => Shift::Left,
    }
}

// The read and the action on a tape of the inverse of a quadruple. A tape that is read is written.
fn turned_tape(read: Option<u32>, act: Act) -> (Option<u32>, Act)
    ensures reads { result.0 ≡ read_of (turned_deed (deed_of read act)) }
    ensures acts { result.1 ≡ act_of (turned_deed (deed_of read act)) }
{
    match act {
        Act::Write(written) => match read {
            Some(read) => (Some(written), Act::Write(read)),
            None => (None, Act::Shift(Shift::Stay)),
        },
        Act::Shift(shift) => (None, Act::Shift(opposite(shift))),
    }
}

/// The inverse of a quadruple: its states exchanged, the symbols that it reads and writes exchanged, and its shifts
/// reversed.
pub fn turned(quad: &Quad) -> Quad
    ensures { result ≡ turned_quad quad.now }
{
    let (read_one, act_one) = turned_tape(quad.read[0], quad.act[0]);
    let (read_two, act_two) = turned_tape(quad.read[1], quad.act[1]);
    let (read_three, act_three) = turned_tape(quad.read[2], quad.act[2]);
    Quad {
        state: quad.next,
        read: [read_one, read_two, read_three],
        act: [act_one, act_two, act_three],
        next: quad.state,
    }
}
