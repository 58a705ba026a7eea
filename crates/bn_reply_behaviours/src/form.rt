//! How entries are written.

/// The forms in which the entries of a behaviour are written.
#[derive(Clone, Copy, PartialEq, Eq, Debug)]
pub(crate) enum Form {
    /// As a table of a sequential machine.
    Table,
    /// As lines for a reader, with the ports and the element steps.
    Crossings,
}
