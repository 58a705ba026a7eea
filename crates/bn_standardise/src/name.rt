//! The states of the machine in standard form, by name.

ghost use Rattle.std.specs.Prelude.{◌≡◌, IfOk};
ghost use Rattle.bn_standardise.specs.Printed.{name_text};

use bn_base::push_u64;
use bn_lists::NoMemory;
use std::alloc::Global;

/// A state of the machine in standard form.
#[derive(Clone, Copy, PartialEq, Eq, Hash, Debug)]
pub enum Name {
    /// The new start state, with the head on the blank before the word. Printed as `I`.
    First,
    /// A state of the original machine, counted from 0. State s is printed as `Q` followed by s + 1.
    Own(u32),
    /// The new final state. Printed as `O`.
    Last,
}

// The text of the name of a state of the original machine.
fn own_text(alloc: Global, state: u32) -> Result<Vec<u8>, NoMemory>
    ensures { IfOk result (λ text. text.items ≡ name_text (Name.Own state)) }
{
    let mut text = Vec::new(alloc);
    text.push(b'Q')?;
    push_u64(&mut text, u64::from(state) + 1)?;
    Ok(text)
}

/// The printed text of a name.
pub(crate) fn text_of(alloc: Global, name: Name) -> Result<Vec<u8>, NoMemory>
    ensures { IfOk result (λ text. text.items ≡ name_text name) }
{
    match name {
        Name::First => Ok(Vec::from_slice(alloc, b"I")?),
        Name::Own(state) => own_text(alloc, state),
        Name::Last => Ok(Vec::from_slice(alloc, b"O")?),
    }
}
