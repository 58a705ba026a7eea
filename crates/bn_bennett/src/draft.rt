//! A list of quadruples over names while its states are numbered.
ghost use Rattle.std.specs.Prelude.{◌≡◌, ◌+◌, ◌-◌, ◌^◌, ◌<◌, ◌++◌, [], ◌∷◌, Some, IfOk, OnOk, length, slice_get};
ghost use Rattle.bn_quad.specs.Kept.{quad_of, read_of, act_of};
ghost use Rattle.bn_bennett.specs.Translation.{with_name};
ghost use Rattle.bn_bennett.specs.Made.{deed_made, made, numbered_quad};
ghost use Rattle.bn_bennett.specs.Draft.{IsDraft, drafted, Grows};

use crate::rule::{Deed, NamedQuad};
use bn_bennett_laws::Name;
use bn_lists::NoMemory;
use bn_quad::{Act, Quad};
use indexmap::IndexSet;
use std::alloc::Global;

/// The quadruples so far, and the names of their states, each at the state's number.
#[derive(Drop)]
pub struct Draft {
    pub names: IndexSet<Name>,
    pub quads: Vec<Quad>,
}

/// An empty draft. It takes no memory.
pub fn new_draft(alloc: Global) -> Draft
    ensures draft { IsDraft result }
    ensures empty { drafted result ≡ [] }
{
    Draft {
        names: IndexSet::new(alloc),
        quads: Vec::new(alloc),
    }
}

// The number of a name; a new name is added at the end.
fn number_of(names: &mut IndexSet<Name>, name: Name) -> Result<u32, NoMemory>
    requires { length names.old.keys < 2 ^ 32 - 1 }
    ensures names { OnOk result (names.new.keys ≡ with_name names.old.keys name) }
    ensures number { IfOk result (λ number. slice_get names.new.keys number ≡ Some name) }
{
    let (number, _) = names.insert_full(name)?;
    Ok(number as u32)
}

// The symbol read on a tape, if any, and the act on that tape.
fn kept_deed(deed: Deed) -> (Option<u32>, Act)
    ensures read { result.0 ≡ read_of (deed_made deed) }
    ensures act { result.1 ≡ act_of (deed_made deed) }
{
    match deed {
        Deed::Rewrite { read, written } => (Some(read), Act::Write(written)),
        Deed::Move(shift) => (None, Act::Shift(shift)),
    }
}

// The quadruple with numbers in place of its states' names.
fn numbered(state: u32, quad: &NamedQuad, next: u32) -> Quad
    ensures { result ≡ quad_of (numbered_quad state (made quad.now) next) }
{
    let (read_one, act_one) = kept_deed(quad.one);
    let (read_two, act_two) = kept_deed(quad.two);
    let (read_three, act_three) = kept_deed(quad.three);
    Quad {
        state,
        read: [read_one, read_two, read_three],
        act: [act_one, act_two, act_three],
        next,
    }
}

/// Adds a quadruple, and the names of its states if they are new. `Err`: out of memory.
pub fn add(draft: &mut Draft, quad: &NamedQuad) -> Result<(), NoMemory>
    requires draft { IsDraft draft.old }
    requires room { length (drafted draft.old) < 2 ^ 30 }
    ensures { OnOk result (Grows draft.old (made quad.now ∷ []) draft.new) }
{
    let state = number_of(&mut draft.names, quad.from)?;
    let next = number_of(&mut draft.names, quad.to)?;
    draft.quads.push(numbered(state, quad, next))?;
    Ok(())
}

/// Adds two quadruples, in this order. `Err`: out of memory.
pub fn add_two(draft: &mut Draft, first: &NamedQuad, second: &NamedQuad) -> Result<(), NoMemory>
    requires draft { IsDraft draft.old }
    requires room { length (drafted draft.old) + 1 < 2 ^ 30 }
    ensures { OnOk result (Grows draft.old (made first.now ∷ made second.now ∷ []) draft.new) }
{
    add(draft, first)?;
    add(draft, second)
}
