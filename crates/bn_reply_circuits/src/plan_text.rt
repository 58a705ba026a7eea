//! The text of a floor plan.

ghost use Rattle.std.specs.Prelude.{◌≡◌, ◌<◌, ◌++◌, ◌∷◌, [], IfOk, OnOk, decimal};
ghost use Rattle.bn_netlist_laws.specs.Sentences.{line_text};
ghost use Rattle.bn_plan.specs.declared.tracked.Tracked.{Tracked};
ghost use Rattle.bn_lists.specs.Lists.{Has};
ghost use Rattle.bn_plan.specs.Plans.{untracked};
ghost use Rattle.bn_plan.specs.Wires.{HasFourLines};
ghost use Rattle.bn_reply_circuits.specs.PlanReply.{plan_text, wire_line, wire_lines};

use bn_base::push_u64;
use bn_circuits::Line;
use bn_element::{EAST, NORTH, SOUTH};
use bn_lists::NoMemory;
use bn_plan::{Plan, Tracked};
use std::alloc::Global;

/// The text of a floor plan of this many elements: four lines with a number each, and a line for each wire. Elements
/// and positions are counted from 0, tracks from 1. (This project's own profile.)
pub(crate) fn plan_text(alloc: Global, elements: u32, plan: &Plan) -> Result<Vec<u8>, NoMemory>
    requires { (t : Tracked) → Has plan.now.wires t → HasFourLines (untracked t) }
    ensures { IfOk result (λ text. text.items ≡ plan_text elements plan.now) }
{
    let wires = plan.wires();
    let mut text = Vec::new(alloc);
    push_counted(&mut text, b"elements ", u64::from(elements))?;
    push_counted(&mut text, b"wires ", wires.len() as u64)?;
    push_counted(&mut text, b"tracks ", u64::from(plan.tracks()))?;
    push_counted(&mut text, b"densest ", u64::from(plan.densest()))?;
    push_wires(&mut text, wires)?;
    Ok(text)
}

// The line of each wire, in their order.
fn push_wires(text: &mut Vec<u8>, wires: &[Tracked]) -> Result<(), NoMemory>
    requires { (t : Tracked) → Has wires.now t → HasFourLines (untracked t) }
    ensures { OnOk result (text.new.items ≡ text.old.items ++ wire_lines wires.now) }
{
    for wire in wires {
        push_wire(text, *wire)?;
    }
    Ok(())
}

// The line of one wire.
fn push_wire(text: &mut Vec<u8>, wire: Tracked) -> Result<(), NoMemory>
    requires { HasFourLines (untracked wire) }
    ensures { OnOk result (text.new.items ≡ text.old.items ++ wire_line wire) }
{
    push_named(text, b"wire ", wire.from)?;
    push_named(text, b" ", wire.to)?;
    push_counted(text, b" track ", u64::from(wire.track))
}

// A word and a number, at the end of a line.
fn push_counted(text: &mut Vec<u8>, word: &[u8], number: u64) -> Result<(), NoMemory>
    ensures { OnOk result (text.new.items ≡ text.old.items
        ++ (word.now ++ (decimal number ++ 10 ∷ []))) }
{
    text.extend_from_slice(word)?;
    push_u64(text, number)?;
    text.extend_from_slice(b"\n")?;
    Ok(())
}

// A word and a port of an element.
fn push_named(text: &mut Vec<u8>, word: &[u8], line: Line) -> Result<(), NoMemory>
    requires { line.line < 4 }
    ensures { OnOk result (text.new.items ≡ text.old.items ++ (word.now ++ line_text line)) }
{
    text.extend_from_slice(word)?;
    push_u64(text, u64::from(line.element))?;
    text.extend_from_slice(match line.line {
        NORTH => b".n",
        EAST => b".e",
        SOUTH => b".s",
        _ => b".w",
    })?;
    Ok(())
}
