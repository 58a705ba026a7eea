//! Labels of breakpoints.

ghost use Rattle.std.specs.Prelude.{◌≡◌, true, IfOk};
ghost use Rattle.std.specs.List.{list_all};
ghost use Rattle.std.specs.Char.{is_ascii_alphanumeric};
ghost use Rattle.bn_session.specs.Sentences as forms;

use bn_lists::NoMemory;
use std::alloc::Global;
use std::marker::Model;

/// The greatest number of bytes of a label.
const MOST_BYTES: usize = 16;

/// The label of a breakpoint: 1 to 16 ASCII letters and digits. Contracts see the list of its bytes.
#[derive(Drop)]
pub struct Label {
    bytes: Vec<u8>,
}

impl Model for Label {
    ghost use Rattle.std.specs.Prelude.{ℕ, List, ◌≡◌, true};
    ghost use Rattle.bn_session.specs.Sentences as forms;

    ghost Value = { List ℕ };

    ghost view = { λ l. l.bytes.items };

    ghost invariant = { λ l. forms.is_label l.bytes.items ≡ true };
}

impl Label {
    // The label of these bytes.
    pub(crate) fn new(alloc: Global, bytes: &[u8]) -> Result<Label, NoMemory>
        requires { forms.is_label bytes.now ≡ true }
        ensures { IfOk result (λ label. label ≡ bytes.now) }
    {
        let bytes = Vec::from_slice(alloc, bytes)?;
        Ok(Label { bytes })
    }

    /// The bytes of the label. Allocates no memory.
    pub fn as_slice(&self) -> &[u8]
        ensures bytes { result.now ≡ self.now }
        ensures form { forms.is_label self.now ≡ true }
    {
        self.bytes.as_slice()
    }
}

// Whether these bytes are a label.
pub(crate) fn is_label(bytes: &[u8]) -> bool
    ensures { result ≡ forms.is_label bytes.now }
{
    1 <= bytes.len() && bytes.len() <= MOST_BYTES && has_label_bytes(bytes)
}

// Whether each byte is allowed in a label.
fn has_label_bytes(bytes: &[u8]) -> bool
    ensures { result ≡ list_all is_ascii_alphanumeric bytes.now }
{
    bytes.iter().all(|byte| byte.is_ascii_alphanumeric())
}
