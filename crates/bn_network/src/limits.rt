//! The limits on the symbols of cells and controls, and on the run of a circuit.

ghost use Rattle.std.specs.Prelude.{◌≡◌};

/// The most symbols that a cell may have, including the blank.
pub const MOST_SYMBOLS: u32 = 4_001;

/// The greatest number of element steps that `drive` accepts as the limit of a run: 2^61 (this project's own profile).
pub const MOST_DRIVE_STEPS: u64 = 1 << 61;
