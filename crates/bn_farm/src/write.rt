//! Writing a farm with a schedule.

ghost use Rattle.std.specs.Prelude.{◌≡◌, ◌+◌, ◌++◌, ◌∷◌, [], map, IfOk, OnOk, codes, decimal};
ghost use Rattle.bn_farm.specs.FarmTexts.{IsFarmText, schedule_text, sign_text};
ghost use Rattle.bn_farm.specs.Farms.{IsAdmitted, IsFarm, board_of};
ghost use Rattle.bn_farm.specs.Writing.{HasWritten};

use crate::event::Event;
use crate::farm::Farm;
use crate::schedule::Schedule;
use bn_base::push_u64;
use bn_lists::NoMemory;
use bn_netlist::{NetConfig, write_config};
use std::alloc::Global;

/// The text of a farm and a schedule: the text of each circuit with a line `%` after it, and the schedule's lines.
/// (This project's own definition.)
pub fn write_farm(alloc: Global, farm: &Farm, schedule: &Schedule) -> Result<Vec<u8>, NoMemory>
    ensures { IfOk result (λ text. IsFarmText farm.now schedule.now text.items) }
{
    let mut text = Vec::new(alloc);
    push_boards(alloc, &mut text, farm.boards())?;
    push_events(&mut text, schedule.events())?;
    Ok(text)
}

// Appends the text of each circuit with a line `%` after it.
fn push_boards(alloc: Global, text: &mut Vec<u8>, boards: &[NetConfig]) -> Result<(), NoMemory>
    requires { IsFarm (map board_of boards.now) }
    ensures { OnOk result (HasWritten text.old.items text.new.items (map board_of boards.now)) }
{
    for board in boards {
        push_board(alloc, text, board)?;
    }
    Ok(())
}

// Appends the text of one circuit, and a line `%`.
fn push_board(alloc: Global, text: &mut Vec<u8>, board: &NetConfig) -> Result<(), NoMemory>
    requires { IsAdmitted (board_of board.now) }
    ensures { OnOk result (HasWritten text.old.items text.new.items (board_of board.now ∷ [])) }
{
    let written = write_config(alloc, board)?;
    text.extend_from_slice(written.as_slice())?;
    text.extend_from_slice(b"%\n")?;
    Ok(())
}

// Appends the line of each event, in their order.
fn push_events(text: &mut Vec<u8>, events: &[Event]) -> Result<(), NoMemory>
    ensures { OnOk result (text.new.items ≡ text.old.items ++ schedule_text events.now) }
{
    for event in events {
        push_event(text, *event)?;
    }
    Ok(())
}

// Appends the line of one event, in which circuits are counted from 1.
fn push_event(text: &mut Vec<u8>, event: Event) -> Result<(), NoMemory>
    ensures { OnOk result (text.new.items ≡ text.old.items ++ (sign_text event.forward
        ++ (decimal (event.board + 1) ++ (codes " " ++ (decimal event.count ++ 10 ∷ []))))) }
{
    text.extend_from_slice(if event.forward { b"+ " } else { b"- " })?;
    push_number(text, u64::from(event.board) + 1)?;
    text.extend_from_slice(b" ")?;
    push_number(text, event.count)?;
    text.extend_from_slice(b"\n")?;
    Ok(())
}

// Appends a number.
fn push_number(text: &mut Vec<u8>, number: u64) -> Result<(), NoMemory>
    ensures { OnOk result (text.new.items ≡ text.old.items ++ decimal number) }
{
    push_u64(text, number)?;
    Ok(())
}
