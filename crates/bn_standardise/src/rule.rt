//! The quintuples of the machine in standard form, with names for its states. There is one function for each kind.

ghost use Rattle.std.specs.Prelude.{◌≡◌};
ghost use Rattle.bn_standardise.specs.Rules as rules;

use crate::name::Name;
use bn_machine::{Quint, Shift};

/// A quintuple with names for its states.
#[derive(Clone, Copy)]
pub struct Rule {
    pub state: Name,
    pub read: u32,
    pub write: u32,
    pub shift: Shift,
    pub next: Name,
}

/// The machine steps from the blank before the word onto its first letter, in its start state.
pub(crate) fn entering(start: u32) -> Rule
    ensures { result ≡ rules.entering start }
{
    Rule {
        state: Name::First,
        read: 0,
        write: 0,
        shift: Shift::Right,
        next: Name::Own(start),
    }
}

/// A quintuple of the original machine, with names for its states.
pub(crate) fn renamed(quint: &Quint) -> Rule
    ensures { result ≡ rules.own_rule quint.now }
{
    Rule {
        state: Name::Own(quint.state),
        read: quint.read,
        write: quint.write,
        shift: quint.shift,
        next: Name::Own(quint.next),
    }
}

/// The halted machine steps back over a letter.
pub(crate) fn back_over(halt: u32, letter: u32) -> Rule
    ensures { result ≡ rules.back_over halt letter }
{
    Rule {
        state: Name::Own(halt),
        read: letter,
        write: letter,
        shift: Shift::Left,
        next: Name::Own(halt),
    }
}

/// The halted machine ends at the blank before the letters.
pub(crate) fn leaving(halt: u32) -> Rule
    ensures { result ≡ rules.leaving halt }
{
    Rule {
        state: Name::Own(halt),
        read: 0,
        write: 0,
        shift: Shift::Stay,
        next: Name::Last,
    }
}
