//! Why bytes are no script.

use bn_lists::NoMemory;

/// Why bytes are no script: the first line with an error, counted from 1, and the first error of that line, in this
/// order.
#[derive(Clone, Copy, PartialEq, Eq, Debug)]
pub enum ScriptRefusal {
    /// The line has none of the forms, or lacks its byte 10.
    Form {
        /// The line's number, from 1.
        line: u64,
    },
    /// No state has the name.
    NoState {
        /// The line's number, from 1.
        line: u64,
    },
    /// The label of a breakpoint to be set is already in use at that point of the script.
    SameBreak {
        /// The line's number, from 1.
        line: u64,
    },
    /// The label of a breakpoint to be removed is not in use at that point of the script.
    NoBreak {
        /// The line's number, from 1.
        line: u64,
    },
    /// Memory ran out.
    NoMemory,
}

impl From<NoMemory> for ScriptRefusal {
    ghost use Rattle.std.specs.Prelude.{◌≡◌};
    ghost use Rattle.bn_session.specs.declared.refusal.ScriptRefusal.TheVariants as refusals;

    ghost from_gives = { λ _ refusal. refusal ≡ refusals.NoMemory };

    fn from(_want: NoMemory) -> ScriptRefusal {
        ScriptRefusal::NoMemory
    }
}
