//! The text of a place.

ghost use Rattle.std.specs.Prelude.{◌≡◌, ◌<◌, ◌++◌, OnOk, OnErr};
ghost use Rattle.bn_netlist_laws.specs.Sentences.{line_of_place, line_text, place_text};
ghost use Rattle.bn_reply.specs.Fronts.{GrewInPart};

use bn_base::push_u64;
use bn_circuits::{Line, Place};
use bn_element::{EAST, NORTH, SOUTH};
use bn_lists::NoMemory;
use bn_reply::push;

// Appends a place: the line that the signal is about to enter, or the line by which it has left.
pub(crate) fn push_place(text: &mut Vec<u8>, place: Place) -> Result<(), NoMemory>
    requires { (line_of_place place).line < 4 }
    ensures added { OnOk result (text.new.items ≡ text.old.items ++ place_text place) }
    ensures refused { OnErr result (GrewInPart text.old.items text.new.items (place_text place)) }
{
    match place {
        Place::Enter { element, line } => {
            push(text, b"at ")?;
            push_line(text, Line { element, line })
        }
        Place::Left { element, line } => {
            push(text, b"left ")?;
            push_line(text, Line { element, line })
        }
    }
}

// Appends a line of an element.
fn push_line(text: &mut Vec<u8>, line: Line) -> Result<(), NoMemory>
    requires { line.line < 4 }
    ensures added { OnOk result (text.new.items ≡ text.old.items ++ line_text line) }
    ensures refused { OnErr result (GrewInPart text.old.items text.new.items (line_text line)) }
{
    push_u64(text, u64::from(line.element))?;
    match line.line {
        NORTH => push(text, b".n"),
        EAST => push(text, b".e"),
        SOUTH => push(text, b".s"),
        _ => push(text, b".w"),
    }
}
