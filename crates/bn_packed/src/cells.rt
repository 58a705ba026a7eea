//! The port to which another one leads, encoded as one number.

ghost use Rattle.std.specs.Prelude.{◌≡◌, ◌/◌, ◌^◌, ◌<◌, ◌≤◌, [], length, map, replicate, None, Some, slice_get};
ghost use Rattle.std.specs.Prelude.{vec_capacity};
ghost use Rattle.bn_packed.specs.Numbers.{line_of, number_of};
ghost use Rattle.bn_packed.specs.Ends.{nth_line, opposite, narrow_end, wide_end, IsLineBelow};

use bn_circuits::Line;

/// The number of an element's input ports, and of its output ports.
pub(crate) const LINES: usize = 4;

/// The number of elements in a block, by which ports are numbered.
pub(crate) const BLOCK: usize = 1_024;

/// The greatest number of elements whose ports have numbers of 32 bits, with one number reserved for `LOOSE`.
pub(crate) const NARROW: u32 = 1_073_741_823;

/// The number of 32 bits that denotes no wire.
const LOOSE: u32 = 4_294_967_295;

/// A number of 64 bits that denotes no wire.
const WIDE_LOOSE: u64 = 18_446_744_073_709_551_615;

/// The greatest number of a port whose element has a number of 32 bits.
const WIDE_GREATEST: u64 = 17_179_869_183;

/// A number that denotes the port to which another one leads, or that there is no wire.
pub(crate) trait Cell: Copy {
    ghost use Rattle.std.specs.Prelude.{◌≤◌, ℕ, [], Option, map, replicate, None, Some, is_none, false};
    ghost use Rattle.std.specs.Prelude.{vec_capacity};
    ghost use Rattle.bn_circuits.specs.declared.line.Line.{Line};
    ghost use Rattle.bn_packed.specs.Numbers.{line_of};

    /// The port that the number denotes, or `None` for no wire.
    ghost tells: { Self → Option Line };

    /// The number of elements whose ports it can denote.
    ghost limit: { ℕ };

    /// The value that denotes the port with this number.
    fn of(number: usize) -> Self
        requires { IsLineBelow limit (line_of number) }
        ensures { tells result ≡ Some (line_of number) };

    /// The port that it denotes, or `None` for no wire.
    fn end(self) -> Option<Line>
        ensures { result ≡ tells self };

    /// Whether it denotes that there is no wire.
    fn is_loose(self) -> bool
        ensures { result ≡ is_none (tells self) };

    /// The number of the port that it denotes, which the contract requires to exist.
    fn number(self) -> usize
        requires { is_none (tells self) ≡ false }
        ensures { tells self ≡ Some (line_of result) };

    /// A list of `count` values that denote no wire, built in `room`, which is empty and has enough capacity.
    fn loose(room: Vec<Self>, count: usize) -> Vec<Self>
        requires empty { room.items ≡ [] }
        requires room { count ≤ vec_capacity room }
        ensures { map tells result.items ≡ replicate count None };
}

impl Cell for u32 {
    ghost use Rattle.bn_packed.specs.Ends.{narrow_end};

    ghost tells = { narrow_end };

    ghost limit = { 1073741823 };

    fn of(number: usize) -> u32 {
        number as u32
    }

    fn end(self) -> Option<Line> {
        if self == LOOSE {
            return None;
        }
        Some(line_of(self as usize))
    }

    fn is_loose(self) -> bool {
        self == LOOSE
    }

    fn number(self) -> usize {
        self as usize
    }

    #[tactic(auto, using(crate::proofs::LooseLemmas::loose_narrow))]
    fn loose(room: Vec<u32>, count: usize) -> Vec<u32>
        requires empty { room.items ≡ [] }
        requires room { count ≤ vec_capacity room }
        ensures { map narrow_end result.items ≡ replicate count None }
    {
        let mut cells = room;
        // The capacity suffices. (For the prover, this method repeats the trait's clauses.)
        cells.resize(count, LOOSE).unwrap();
        cells
    }
}

impl Cell for u64 {
    ghost use Rattle.bn_packed.specs.Ends.{wide_end};

    ghost tells = { wide_end };

    ghost limit = { 4294967296 };

    fn of(number: usize) -> u64 {
        number as u64
    }

    fn end(self) -> Option<Line> {
        if self > WIDE_GREATEST {
            return None;
        }
        Some(line_of(self as usize))
    }

    fn is_loose(self) -> bool {
        self > WIDE_GREATEST
    }

    fn number(self) -> usize {
        self as usize
    }

    #[tactic(auto, using(crate::proofs::LooseLemmas::loose_wide))]
    fn loose(room: Vec<u64>, count: usize) -> Vec<u64>
        requires empty { room.items ≡ [] }
        requires room { count ≤ vec_capacity room }
        ensures { map wide_end result.items ≡ replicate count None }
    {
        let mut cells = room;
        // The capacity suffices. (For the prover, this method repeats the trait's clauses.)
        cells.resize(count, WIDE_LOOSE).unwrap();
        cells
    }
}

/// The number of a port: in blocks of elements, first the north ports of a block, then the east, the south and the
/// west ones.
pub(crate) fn line_number(line: Line) -> usize
    requires { line.line < 4 }
    ensures { result ≡ number_of line }
{
    let element = line.element as usize;
    let row = LINES * (element / BLOCK) + line.line as usize;
    BLOCK * row + element % BLOCK
}

/// The port with this number.
pub(crate) fn line_of(number: usize) -> Line
    requires { (line_of number).element < 2 ^ 32 }
    ensures { result ≡ line_of number }
{
    Line {
        element: element_of(number) as u32,
        line: (number / BLOCK % LINES) as u32,
    }
}

/// The element of the port with this number.
pub(crate) fn element_of(number: usize) -> usize
    ensures { result ≡ (line_of number).element }
{
    BLOCK * (number / BLOCK / LINES) + number % BLOCK
}

/// The port at this place, counted from 0, in the list of the ports of all elements, element by element.
pub(crate) fn nth_line(place: usize) -> Line
    requires { place / 4 < 2 ^ 32 }
    ensures { result ≡ nth_line place }
{
    Line {
        element: (place / LINES) as u32,
        line: (place % LINES) as u32,
    }
}

/// The port across the element from this one.
pub(crate) fn opposite(line: Line) -> Line
    ensures { result ≡ opposite line }
{
    Line {
        element: line.element,
        line: line.line ^ 2,
    }
}

/// The value stored for the port with this number.
pub(crate) fn cell_at<C: Cell>(cells: &[C], number: usize) -> C
    requires { number < length cells.now }
    ensures { slice_get (map C.tells cells.now) number ≡ Some (C.tells result) }
{
    cells[number]
}
