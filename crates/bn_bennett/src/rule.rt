//! The quadruples of Bennett's list, over the names of their states, one function for each kind.
ghost use Rattle.std.specs.Prelude.{◌≡◌};
ghost use Rattle.bn_machine.specs.Tape.{opposite};
ghost use Rattle.bn_bennett_laws.specs.List as list;
ghost use Rattle.bn_bennett.specs.Made.{deed_made, made};

use bn_bennett_laws::Name;
use bn_machine::{Quint, Shift};

/// The deed of a quadruple on a tape.
#[derive(Clone, Copy)]
pub enum Deed {
    /// Reads this symbol and writes that one.
    Rewrite { read: u32, written: u32 },
    /// Shifts the head without reading.
    Move(Shift),
}

/// A quadruple over names.
#[derive(Clone, Copy)]
pub struct NamedQuad {
    pub from: Name,
    pub one: Deed,
    pub two: Deed,
    pub three: Deed,
    pub to: Name,
}

// Reads the symbol and writes it again.
fn keep(symbol: u32) -> Deed
    ensures { deed_made result ≡ list.keep symbol }
{
    Deed::Rewrite {
        read: symbol,
        written: symbol,
    }
}

// Reads nothing, and leaves the head where it is.
const REST: Deed = Deed::Move(Shift::Stay);

// The shift that undoes a shift.
fn opposite(shift: Shift) -> Shift
    ensures { result ≡ opposite shift }
{
    match shift {
        Shift::Left => Shift::Right,
        Shift::Stay => Shift::Stay,
        Shift::Right => Shift::Left,
    }
}

/// The first quadruple of quintuple `m` in compute: it rewrites the symbol, and moves the history's head to the next
/// blank.
pub fn writes_ahead(m: u32, quint: &Quint) -> NamedQuad
    ensures { made result ≡ list.writes_ahead m quint.now }
{
    NamedQuad {
        from: Name::Compute(quint.state),
        one: Deed::Rewrite {
            read: quint.read,
            written: quint.write,
        },
        two: Deed::Move(Shift::Right),
        three: keep(0),
        to: Name::ComputeWithin(m),
    }
}

/// The second quadruple of quintuple `m` in compute: it shifts the work tape's head, and writes `m` into the history.
pub fn shifts_ahead(m: u32, quint: &Quint) -> NamedQuad
    ensures { made result ≡ list.shifts_ahead m quint.now }
{
    NamedQuad {
        from: Name::ComputeWithin(m),
        one: Deed::Move(quint.shift),
        two: Deed::Rewrite {
            read: 0,
            written: m,
        },
        three: REST,
        to: Name::Compute(quint.next),
    }
}

/// The quadruple that begins copying, in the final state `last`, when the history ends with `n`, the number of the
/// last quintuple.
pub fn begins_copy(last: u32, n: u32) -> NamedQuad
    ensures { made result ≡ list.begins_copy last n }
{
    NamedQuad {
        from: Name::Compute(last),
        one: keep(0),
        two: keep(n),
        three: keep(0),
        to: Name::GoRight,
    }
}

/// The quadruple that moves the heads of the work tape and the output tape right.
pub fn goes_right() -> NamedQuad
    ensures { made result ≡ list.goes_right }
{
    NamedQuad {
        from: Name::GoRight,
        one: Deed::Move(Shift::Right),
        two: REST,
        three: Deed::Move(Shift::Right),
        to: Name::CopyLetter,
    }
}

/// The quadruple that copies the letter `x`; `n` is the number of quintuples.
pub fn copies_letter(n: u32, x: u32) -> NamedQuad
    ensures { made result ≡ list.copies_letter n x }
{
    NamedQuad {
        from: Name::CopyLetter,
        one: keep(x),
        two: keep(n),
        three: Deed::Rewrite {
            read: 0,
            written: x,
        },
        to: Name::GoRight,
    }
}

/// The quadruple that turns the heads at the blank after the output; `n` is the number of quintuples.
pub fn turns_left(n: u32) -> NamedQuad
    ensures { made result ≡ list.turns_left n }
{
    NamedQuad {
        from: Name::CopyLetter,
        one: keep(0),
        two: keep(n),
        three: keep(0),
        to: Name::GoLeft,
    }
}

/// The quadruple that moves the heads of the work tape and the output tape left.
pub fn goes_left() -> NamedQuad
    ensures { made result ≡ list.goes_left }
{
    NamedQuad {
        from: Name::GoLeft,
        one: Deed::Move(Shift::Left),
        two: REST,
        three: Deed::Move(Shift::Left),
        to: Name::PassLetter,
    }
}

/// The quadruple that passes the letter `x`; `n` is the number of quintuples.
pub fn passes_letter(n: u32, x: u32) -> NamedQuad
    ensures { made result ≡ list.passes_letter n x }
{
    NamedQuad {
        from: Name::PassLetter,
        one: keep(x),
        two: keep(n),
        three: keep(x),
        to: Name::GoLeft,
    }
}

/// The quadruple that ends copying at the blank, and leads to retrace in the final state `last`.
pub fn ends_copy(last: u32, n: u32) -> NamedQuad
    ensures { made result ≡ list.ends_copy last n }
{
    NamedQuad {
        from: Name::PassLetter,
        one: keep(0),
        two: keep(n),
        three: keep(0),
        to: Name::Retrace(last),
    }
}

/// The first quadruple of quintuple `m` in retrace: it shifts the work tape's head back, and erases `m` from the
/// history.
pub fn shifts_back(m: u32, quint: &Quint) -> NamedQuad
    ensures { made result ≡ list.shifts_back m quint.now }
{
    NamedQuad {
        from: Name::Retrace(quint.next),
        one: Deed::Move(opposite(quint.shift)),
        two: Deed::Rewrite {
            read: m,
            written: 0,
        },
        three: REST,
        to: Name::RetraceWithin(m),
    }
}

/// The second quadruple of quintuple `m` in retrace: it restores the symbol, and moves the history's head left.
pub fn writes_back(m: u32, quint: &Quint) -> NamedQuad
    ensures { made result ≡ list.writes_back m quint.now }
{
    NamedQuad {
        from: Name::RetraceWithin(m),
        one: Deed::Rewrite {
            read: quint.write,
            written: quint.read,
        },
        two: Deed::Move(Shift::Left),
        three: keep(0),
        to: Name::Retrace(quint.state),
    }
}
