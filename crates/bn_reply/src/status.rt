//! How a command ended.

ghost use Rattle.std.specs.Prelude.{◌≡◌};
ghost use Rattle.bn_reply.specs.Codes.{code_of};

/// How a command of the workbench ended.
#[derive(Clone, Copy, PartialEq, Eq, Debug)]
pub enum Status {
    /// The command's text was written.
    Done,
    /// The arguments have none of the forms.
    Usage,
    /// The input cannot be read as what the command takes.
    Text,
    /// The input's machine is not one that the command takes.
    Machine,
    /// The word has a letter that is not one of the machine's.
    Word,
    /// The input, the word, the circuit, or the machine to be made, in quintuples or quadruples, is too large.
    Size,
    /// The source failed.
    ReadFault,
    /// The sink failed.
    WriteFault,
    /// Memory ran out.
    NoMemory,
    /// The run is stuck.
    Stuck,
    /// The run left its window.
    Window,
    /// The run was not at its end.
    Inside,
}

impl Status {
    /// The exit code of a program that ends with this status.
    pub fn code(&self) -> u8
        ensures { result ≡ code_of self.now }
    {
        match self {
            Status::Done => 0,
            Status::Usage => 2,
            Status::Text => 3,
            Status::Machine => 4,
            Status::Word => 5,
            Status::Size => 6,
            Status::ReadFault => 7,
            Status::WriteFault => 8,
            Status::NoMemory => 9,
            Status::Stuck => 10,
            Status::Window => 11,
            Status::Inside => 12,
        }
    }
}
