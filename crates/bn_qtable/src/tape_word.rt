//! Input words on the tapes of a machine of quadruples.

/// A word on one tape, by the names of its symbols (this project's own profile).
#[derive(Clone, Copy, Debug)]
pub enum TapeWord<'a> {
    /// Each byte is the name of a symbol.
    Letters(&'a [u8]),
    /// The names of the symbols, separated by commas. No bytes at all are the empty word.
    Names(&'a [u8]),
}

/// The words with which a machine of quadruples is started (this project's own profile).
#[derive(Clone, Copy, Debug)]
pub enum TapeWords<'a> {
    /// A word on tape 1; tapes 2 and 3 are blank.
    One(TapeWord<'a>),
    /// A word on each tape, tape 1 first.
    Three(TapeWord<'a>, TapeWord<'a>, TapeWord<'a>),
}
