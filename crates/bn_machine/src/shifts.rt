//! Shifts of the head, as this project's tables spell them.

ghost use Rattle.std.specs.Prelude.{◌≡◌, true, false, MatchOption};
ghost use Rattle.bn_machine.specs.Shifts.{is_shift, shift_text};

use crate::quint::Shift;

/// The shift of a field: `-` to the left, `0` for none, `+` to the right. Returns `None` for any other field.
pub fn shift_of(field: &[u8]) -> Option<Shift>
    ensures { MatchOption result (is_shift field.now ≡ false) (λ s. (is_shift field.now ≡ true)
        × (field.now ≡ shift_text s)) }
{
    match field {
        b"-" => Some(Shift::Left),
        b"0" => Some(Shift::Stay),
        b"+" => Some(Shift::Right),
        _ => None,
    }
}

/// The text of a shift.
pub fn text_of_shift(shift: Shift) -> &'static [u8]
    ensures { result.now ≡ shift_text shift }
{
    match shift {
        Shift::Left => b"-",
        Shift::Stay => b"0",
        Shift::Right => b"+",
    }
}
