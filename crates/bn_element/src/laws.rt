//! A law on the definitions alone. The function does nothing: its contract is a theorem on the rotary element.

ghost use Rattle.bn_element.specs.Inverse.{RotaryIsItsInverse};

/// The inverse of the rotary element is the rotary element with east and west exchanged on both sides.
pub fn rotary_is_its_inverse()
    ensures { RotaryIsItsInverse }
{}
