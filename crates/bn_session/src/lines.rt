//! The lines of a session's answer.

ghost use Rattle.std.specs.Prelude.{◌≡◌, ◌<◌, ◌++◌, ◌∷◌, [], OnOk, OnErr, IfOk, codes, decimal};
ghost use Rattle.std.specs.Option.{option_copied};
ghost use Rattle.bn_netlist_laws.specs.Sentences.{line_of_place, line_text, place_text};
ghost use Rattle.bn_session.specs.Plays.{named_text, place_line, label_line};

use crate::playable::Playable;
use bn_base::push_u64;
use bn_circuits::Place;
use bn_element::{EAST, NORTH, SOUTH};
use bn_lists::NoMemory;
use std::alloc::Global;

// Appends the line with the place of the signal, and the label that is reported there. After `NoMemory` nothing was
// appended.
pub(crate) fn write_place<W, C: Playable<W>>(
    alloc: Global,
    circuit: &C,
    named: Option<&[u8]>,
    out: &mut Vec<u8>,
) -> Result<(), NoMemory>
    ensures ok { OnOk result (out.new.items ≡ out.old.items
        ++ place_line (C.config circuit.now) (option_copied named.entry)) }
    ensures err { OnErr result (out.new.items ≡ out.old.items) }
{
    let line = place_line::<W, C>(alloc, circuit, named)?;
    push(out, &line)
}

// Appends the line of a word and a label. After `NoMemory` nothing was appended.
pub(crate) fn write_label(
    alloc: Global,
    word: &[u8],
    label: &[u8],
    out: &mut Vec<u8>,
) -> Result<(), NoMemory>
    ensures ok { OnOk result (out.new.items ≡ out.old.items ++ label_line word.now label.now) }
    ensures err { OnErr result (out.new.items ≡ out.old.items) }
{
    let line = label_line(alloc, word, label)?;
    push(out, &line)
}

// The line with the place of the signal.
fn place_line<W, C: Playable<W>>(
    alloc: Global,
    circuit: &C,
    named: Option<&[u8]>,
) -> Result<Vec<u8>, NoMemory>
    ensures { IfOk result (λ line. line.items ≡ place_line (C.config circuit.now) (option_copied named.entry)) }
{
    let mut line = Vec::new(alloc);
    push_place(&mut line, circuit.place())?;
    push(&mut line, b" steps ")?;
    push_u64(&mut line, circuit.steps())?;
    push_named(&mut line, named)?;
    Ok(line)
}

// The line of a word and a label.
fn label_line(alloc: Global, word: &[u8], label: &[u8]) -> Result<Vec<u8>, NoMemory>
    ensures { IfOk result (λ line. line.items ≡ label_line word.now label.now) }
{
    let mut line = Vec::new(alloc);
    push(&mut line, word)?;
    push(&mut line, label)?;
    push(&mut line, b"\n")?;
    Ok(line)
}

/// The text of a place: the port that the signal is about to enter, or the port by which it has left.
pub fn place_text(alloc: Global, place: Place) -> Result<Vec<u8>, NoMemory>
    requires { (line_of_place place).line < 4 }
    ensures { IfOk result (λ text. text.items ≡ place_text place) }
{
    let mut text = Vec::new(alloc);
    push_place(&mut text, place)?;
    Ok(text)
}

// Appends the text of a place.
fn push_place(text: &mut Vec<u8>, place: Place) -> Result<(), NoMemory>
    requires { (line_of_place place).line < 4 }
    ensures { OnOk result (text.new.items ≡ text.old.items ++ place_text place) }
{
    match place {
        Place::Enter { element, line } => {
            push(text, b"at ")?;
            push_line(text, element, line)
        }
        Place::Left { element, line } => {
            push(text, b"left ")?;
            push_line(text, element, line)
        }
    }
}

// Appends a line of an element.
fn push_line(text: &mut Vec<u8>, element: u32, line: u32) -> Result<(), NoMemory>
    requires { line < 4 }
    ensures { OnOk result (text.new.items ≡ text.old.items ++ line_text (record { element = element; line = line })) }
{
    push_u64(text, u64::from(element))?;
    match line {
        NORTH => push(text, b".n"),
        EAST => push(text, b".e"),
        SOUTH => push(text, b".s"),
        _ => push(text, b".w"),
    }
}

// Appends a label that is reported, and the end of the line.
fn push_named(text: &mut Vec<u8>, named: Option<&[u8]>) -> Result<(), NoMemory>
    ensures { OnOk result (text.new.items ≡ text.old.items ++ (named_text (option_copied named.entry) ++ 10 ∷ [])) }
{
    if let Some(label) = named {
        push(text, b" break ")?;
        push(text, label)?;
    }
    push(text, b"\n")
}

// Appends some bytes. After `NoMemory` nothing was appended.
fn push(text: &mut Vec<u8>, bytes: &[u8]) -> Result<(), NoMemory>
    ensures ok { OnOk result (text.new.items ≡ text.old.items ++ bytes.now) }
    ensures err { OnErr result (text.new.items ≡ text.old.items) }
{
    text.extend_from_slice(bytes)?;
    Ok(())
}
