//! The limits that several crates share.

ghost use Rattle.std.specs.Prelude.{◌≡◌, ◌^◌};

/// The greatest count for machines and tables: steps of a machine, cells of a side, letters, states and ports (this
/// project's own profile).
pub const MOST_COUNT: u64 = 1_048_576;
