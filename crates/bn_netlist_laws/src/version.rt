//! The versions of configuration texts.

/// A version of the text. In version 1 each element has a line of its own. In version 2 a column is written as one
/// entry. (This project's own profile.)
#[derive(Clone, Copy, PartialEq, Eq, Debug)]
pub enum Version {
    /// Version 1.
    One,
    /// Version 2.
    Two,
}

/// The most elements of a text of version 1 (this project's own profile).
pub const MOST_ELEMENTS_IN_ONE: u64 = 1_048_576;
