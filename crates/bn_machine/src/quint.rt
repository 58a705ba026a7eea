//! The quintuples of a machine, and the moves of its head.

/// How a quintuple moves the head: one cell to the left, not at all, or one cell to the right.
#[derive(Clone, Copy, PartialEq, Eq, Debug)]
pub enum Shift {
    /// One cell to the left.
    Left,
    /// Not at all.
    Stay,
    /// One cell to the right.
    Right,
}

/// An end of a tape's window.
#[derive(Clone, Copy, PartialEq, Eq, Debug)]
pub enum Side {
    /// The end with the least position.
    Left,
    /// The end with the greatest position.
    Right,
}

/// A quintuple (Bennett 1973): in `state`, if the head scans `read`, the machine writes `write`, moves its head by
/// `shift` and goes to `next`. States and symbols are counted from 0, and symbol 0 is the blank.
#[derive(Clone, Copy, PartialEq, Eq, Debug)]
pub struct Quint {
    /// The state in which it applies.
    pub state: u32,
    /// The symbol that is scanned.
    pub read: u32,
    /// The symbol that is written in its place.
    pub write: u32,
    /// How the head moves.
    pub shift: Shift,
    /// The state that comes next.
    pub next: u32,
}
