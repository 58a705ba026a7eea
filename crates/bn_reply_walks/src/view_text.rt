//! The text of a view.

ghost use Rattle.std.specs.Prelude.{◌≡◌, ◌<◌, ◌++◌, ◌∷◌, [], IfOk, OnOk, length, codes, decimal};
ghost use Rattle.bn_netlist_laws.specs.Sentences.{place_text};
ghost use Rattle.bn_reply.specs.Lines.{line};
ghost use Rattle.bn_reply_walks.specs.WalkView.{has_turned, numbers_text, turned, walk_view};
ghost use Rattle.bn_reply_walks.specs.Walking.{AreBarsOf};

use crate::packed::elements_and_place;
use bn_base::push_u64;
use bn_circuits::States;
use bn_lists::NoMemory;
use bn_packed::Packed;
use bn_reply::{push, push_counted};
use bn_session::place_text;
use std::alloc::Global;

// The text of a view of a packed net: the place of the signal, the steps, and the numbers of the elements whose bars
// are in other states than these, counted from 0.
pub(crate) fn view_text(
    alloc: Global,
    packed: &Packed,
    before: &States,
) -> Result<Vec<u8>, NoMemory>
    requires { AreBarsOf packed.now before.now }
    ensures { IfOk result (λ text. text.items ≡ walk_view before.now packed.now.config) }
{
    let mut text = Vec::new(alloc);
    let (elements, place) = elements_and_place(packed);
    push(&mut text, place_text(alloc, place)?.as_slice())?;
    push(&mut text, b"\n")?;
    push_counted(&mut text, b"steps ", packed.steps())?;
    push(&mut text, b"turned")?;
    push_turned(&mut text, packed, before, elements)?;
    push(&mut text, b"\n")?;
    Ok(text)
}

// Appends the numbers of the elements whose bars are in other states, each after a space, in rising order.
fn push_turned(
    text: &mut Vec<u8>,
    packed: &Packed,
    before: &States,
    elements: u32,
) -> Result<(), NoMemory>
    requires bars { AreBarsOf packed.now before.now }
    requires all { elements ≡ length packed.now.net.elements }
    ensures { OnOk result (text.new.items ≡ text.old.items
        ++ numbers_text (turned before.now packed.now.config.states)) }
{
    for element in 0..elements {
        if has_turned(packed, before, element) {
            push_number(text, element)?;
        }
    }
    Ok(())
}

// Whether the bar of an element is in another state.
fn has_turned(packed: &Packed, before: &States, element: u32) -> bool
    requires bars { AreBarsOf packed.now before.now }
    requires element { element < length before.now }
    ensures { result ≡ has_turned before.now packed.now.config.states element }
{
    element < packed.len() && before.get(element as usize) != packed.bar(element)
}

// Appends a number after a space.
fn push_number(text: &mut Vec<u8>, number: u32) -> Result<(), NoMemory>
    ensures { OnOk result (text.new.items ≡ text.old.items ++ (codes " " ++ decimal number)) }
{
    push(text, b" ")?;
    push_u64(text, u64::from(number))
}
