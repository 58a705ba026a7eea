//! Words on the three tapes.

/// The symbols of the words on the three tapes at the start, each from cell 1 on.
#[derive(Clone, Copy)]
pub struct TapeSymbols<'a> {
    /// The word on tape 1.
    pub one: &'a [u32],
    /// The word on tape 2.
    pub two: &'a [u32],
    /// The word on tape 3.
    pub three: &'a [u32],
}
