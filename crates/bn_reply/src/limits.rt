//! The limit of an input.

ghost use Rattle.std.specs.Prelude.{◌≡◌, ◌^◌};

/// The most bytes of an input that a command reads: 256 MiB (this project's own profile).
pub const MOST_INPUT_BYTES: u64 = 268_435_456;

/// A law: the most bytes of an input are 2^28.
pub fn most_input_bytes_are_stated()
    ensures { MOST_INPUT_BYTES ≡ 2 ^ 28 }
{}
