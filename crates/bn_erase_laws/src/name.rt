//! The states of the erasing machine, by name.
use bn_bennett_laws::Name;

/// A state of the machine that erases its input (Bennett 1973): one of the reversible machine for x to y, or one of
/// the reversible machine for y to x, which runs backward. The state in which the two are joined is named as the
/// first machine's.
#[derive(Clone, Copy, PartialEq, Eq, Debug)]
pub enum ErasingName {
    /// A state of the first machine. Printed `F` and the name.
    First(Name),
    /// A state of the second machine. Printed `G` and the name.
    Second(Name),
}
