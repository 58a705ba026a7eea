//! The quadruples that a machine may contain: in range, and each tape either read and written or only shifted.
ghost use Rattle.std.specs.Prelude.{◌≡◌, ◌↔◌, ◌<◌, ◌^◌, ℕ, IsTrue, IfSome, IfNone, All, length, slice_index_or};
ghost use Rattle.bn_quad.specs.Kept.{IsReadInRange, IsActInRange, IsTapeInRange, IsQuadInRange, Agree, IsUnmixed};
ghost use Rattle.bn_quad.specs.Kept.{IsSound, IsFirstFault, read_at, act_at};

use crate::quad::{Act, Quad};

// Whether the symbol that is read, if any, is below `symbols`.
fn is_read_in_range(symbols: u32, read: Option<u32>) -> bool
    ensures { IsTrue result ↔ IsReadInRange symbols read }
{
    match read {
        None => true,
        Some(symbol) => symbol < symbols,
    }
}

// Whether the symbol that is written, if any, is below `symbols`.
fn is_act_in_range(symbols: u32, act: Act) -> bool
    ensures { IsTrue result ↔ IsActInRange symbols act }
{
    match act {
        Act::Write(symbol) => symbol < symbols,
        Act::Shift(_) => true,
    }
}

// Whether all symbols on the tape with this index, counted from 0, are in range.
fn is_tape_in_range(symbols: &[u32; 3], quad: &Quad, tape: usize) -> bool
    requires { tape < 3 }
    ensures { IsTrue result ↔ IsTapeInRange symbols.now quad.now tape }
{
    is_read_in_range(symbols[tape], quad.read[tape])
        && is_act_in_range(symbols[tape], quad.act[tape])
}

// Whether all numbers of the quadruple are in range.
pub fn is_in_range(quad: &Quad, states: u32, symbols: &[u32; 3]) -> bool
    ensures { IsTrue result ↔ IsQuadInRange states symbols.now quad.now }
{
    quad.state < states
        && quad.next < states
        && is_tape_in_range(symbols, quad, 0)
        && is_tape_in_range(symbols, quad, 1)
        && is_tape_in_range(symbols, quad, 2)
}

// Whether a tape with this read and this action is read and written, or unread and shifted.
fn agree(read: Option<u32>, act: Act) -> bool
    ensures { IsTrue result ↔ Agree read act }
{
    match act {
        Act::Write(_) => read.is_some(),
        Act::Shift(_) => read.is_none(),
    }
}

// Whether each tape is read and written, or unread and shifted.
pub fn is_unmixed(quad: &Quad) -> bool
    ensures unmixed { IsTrue result ↔ IsUnmixed quad.now }
    ensures reads { length quad.now.read ≡ 3 }
    ensures acts { length quad.now.act ≡ 3 }
{
    agree(quad.read[0], quad.act[0])
        && agree(quad.read[1], quad.act[1])
        && agree(quad.read[2], quad.act[2])
}

// Whether the quadruple is in range and unmixed.
fn is_sound(quad: &Quad, states: u32, symbols: &[u32; 3]) -> bool
    ensures { IsTrue result ↔ IsSound states symbols.now quad.now }
{
    is_in_range(quad, states, symbols) && is_unmixed(quad)
}

// The number, counted from 1, of the first quadruple that is not sound, and the quadruple.
pub fn first_fault(quads: &[Quad], states: u32, symbols: &[u32; 3]) -> Option<(u32, Quad)>
    requires { length quads.now < 2 ^ 32 }
    ensures fault { IfSome result (λ f. IsFirstFault states symbols.now quads.now f.0 f.1) }
    ensures none { IfNone result (All (IsSound states symbols.now) quads.now) }
    ensures tapes { length symbols.now ≡ 3 }
{
    for (index, quad) in quads.iter().enumerate() {
        if !is_sound(quad, states, symbols) {
            return Some((index as u32 + 1, *quad));
        }
    }
    None
}
