//! An input in memory.
ghost use Rattle.std.specs.Prelude.{◌≡◌};

/// An input in memory that belongs to the caller. It never fails.
#[derive(Clone, Copy, Debug)]
pub struct SliceInput<'a> {
    /// The bytes that are left.
    pub(crate) rest: &'a [u8],
}

impl<'a> SliceInput<'a> {
    /// An input of `bytes`. It takes no memory.
    pub fn new(bytes: &'a [u8]) -> SliceInput<'a>
        ensures { result.rest.now ≡ bytes.now }
    {
        SliceInput { rest: bytes }
    }
}
