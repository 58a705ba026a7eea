//! The control's states that a quadruple shows, and whether an earlier quadruple shows them.
ghost use Rattle.std.specs.Prelude.{◌≡◌, ◌≤◌, ℕ, length, true, false};
ghost use Rattle.bn_network.specs.Controls.{Reads, Writes};
ghost use Rattle.bn_control.specs.Names.{listed, symbols_of};
ghost use Rattle.bn_control.specs.Shown.{written, IsReadState, IsWriteState, ShowsRead, ShowsWrite};
ghost use Rattle.bn_control.specs.Shown.{IsShownBefore};

use crate::name::Symbols;
use bn_quad::{Act, Quad};

/// Those of the two symbols that exist, in a row.
pub(crate) fn symbols(first: Option<u32>, second: Option<u32>) -> Symbols
    ensures { result ≡ symbols_of first second }
{
    match (first, second) {
        (Some(first), second) => Symbols::Leading(first, second),
        (None, Some(second)) => Symbols::Leading(second, None),
        (None, None) => Symbols::Empty,
    }
}

/// The symbol that an act writes, if it writes.
pub(crate) fn written(act: Act) -> Option<u32>
    ensures { result ≡ written act }
{
    match act {
        Act::Write(symbol) => Some(symbol),
        Act::Shift(_) => None,
    }
}

// Whether this is a read after these symbols.
fn is_read(lower: Symbols, read: Option<u32>, before: Symbols) -> bool
    ensures yes { (from : ℕ) → result ≡ true → IsReadState from (listed lower) read (Reads from (listed before)) }
    ensures no { (from : ℕ) → result ≡ false → IsReadState from (listed lower) read (Reads from (listed before)) → ⊥ }
{
    read.is_some() && lower == before
}

// Whether the quadruple leaves this state and has a read after these symbols.
fn shows_read(quad: &Quad, from: u32, before: Symbols) -> bool
    ensures yes { result ≡ true → ShowsRead quad.now (Reads from (listed before)) }
    ensures no { result ≡ false → ShowsRead quad.now (Reads from (listed before)) → ⊥ }
{
    let [one, two, three] = quad.read;
    quad.state == from
        && (is_read(symbols(None, None), one, before)
            || is_read(symbols(one, None), two, before)
            || is_read(symbols(one, two), three, before))
}

// Whether this is a write on this tape with these symbols still to be written.
fn is_write(slot: u32, lower: Symbols, written: Option<u32>, tape: u32, rest: Symbols) -> bool
    ensures yes { (to : ℕ) → result ≡ true
        → IsWriteState to slot (listed lower) written (Writes to tape (listed rest)) }
    ensures no { (to : ℕ) → result ≡ false → IsWriteState to slot (listed lower) written (Writes to tape (listed rest))
        → ⊥ }
{
    written.is_some() && slot == tape && lower == rest
}

// Whether the quadruple leads to this state and has a write on this tape with these symbols still to be written.
fn shows_write(quad: &Quad, to: u32, tape: u32, rest: Symbols) -> bool
    ensures yes { result ≡ true → ShowsWrite quad.now (Writes to tape (listed rest)) }
    ensures no { result ≡ false → ShowsWrite quad.now (Writes to tape (listed rest)) → ⊥ }
{
    let [one, two, three] = quad.act;
    let (one, two, three) = (written(one), written(two), written(three));
    quad.next == to
        && (is_write(1, symbols(None, None), one, tape, rest)
            || is_write(2, symbols(one, None), two, tape, rest)
            || is_write(3, symbols(two, one), three, tape, rest))
}

/// Whether one of the first `count` quadruples has a read in this state after these symbols.
pub(crate) fn is_read_before(quads: &[Quad], count: usize, from: u32, before: Symbols) -> bool
    requires { count ≤ length quads.now }
    ensures yes { result ≡ true → IsShownBefore quads.now count (Reads from (listed before)) }
    ensures no { result ≡ false → IsShownBefore quads.now count (Reads from (listed before)) → ⊥ }
{
    for index in 0..count {
        if shows_read(&quads[index], from, before) {
            return true;
        }
    }
    false
}

/// Whether one of the first `count` quadruples leads to this state and has a write on this tape with these symbols
/// still to be written.
pub(crate) fn is_written_before(
    quads: &[Quad],
    count: usize,
    to: u32,
    tape: u32,
    rest: Symbols,
) -> bool
    requires { count ≤ length quads.now }
    ensures yes { result ≡ true → IsShownBefore quads.now count (Writes to tape (listed rest)) }
    ensures no { result ≡ false → IsShownBefore quads.now count (Writes to tape (listed rest)) → ⊥ }
{
    for index in 0..count {
        if shows_write(&quads[index], to, tape, rest) {
            return true;
        }
    }
    false
}
