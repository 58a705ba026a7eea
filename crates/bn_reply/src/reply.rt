//! The reply of a command.

ghost use Rattle.std.specs.Prelude.{◌≡◌};

use crate::status::Status;

/// The text and the status of a command's answer.
#[derive(Debug, Drop)]
pub struct Reply {
    /// The text.
    pub text: Vec<u8>,
    /// The status.
    pub status: Status,
}

impl Reply {
    /// The reply with this line, which says that the input has no reading.
    pub fn of_fault(line: Vec<u8>) -> Reply
        ensures { result ≡ record { text = line; status = Status.Text } }
    {
        Reply {
            text: line,
            status: Status::Text,
        }
    }
}
