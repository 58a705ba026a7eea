//! The directions of runs.

/// The direction in which a run makes its steps.
#[derive(Clone, Copy, Debug)]
pub enum Direction {
    /// The run makes steps.
    Forward,
    /// The run undoes steps.
    Backward,
}
