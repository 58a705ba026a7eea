//! The command `farm`.

ghost use Rattle.std.specs.Prelude.{◌≡◌, ◌≤◌, [], length, IfOk};
ghost use Rattle.bn_reply_circuits.specs.FarmRefused.{IsBoardRefused, IsFarmRefused, board_fault_text};
ghost use Rattle.bn_reply_circuits.specs.FarmRefused.{schedule_fault_text};
ghost use Rattle.bn_reply_circuits.specs.FarmReply.{FarmReplies, farm_elements_line, no_schedule_line};
ghost use Rattle.bn_farm.specs.FarmTexts.{IsFarmText};
ghost use Rattle.bn_farm.specs.Farms.{farm_after};
ghost use Rattle.bn_farm.specs.Playing.{AreOnBoards};
ghost use Rattle.bn_farm.specs.Undo.{undoing};

use bn_farm::{Farm, FarmRefusal, MOST_FARM_BYTES, Schedule, read_farm, write_farm};
use bn_lists::NoMemory;
use bn_netlist::NetlistRefusal;
use bn_reply::{Reply, Status};
use std::alloc::Global;

/// The answer of `farm`: the circuits after the schedule, each followed by a line `%`, and the schedule that undoes
/// it; or the fault of the bytes. (This project's own profile.)
pub fn reply_farm(alloc: Global, bytes: &[u8]) -> Result<Reply, NoMemory>
    requires { length bytes.now ≤ MOST_FARM_BYTES }
    ensures { IfOk result (λ r. FarmReplies bytes.now r.status r.text.items []) }
{
    match read_farm(alloc, bytes) {
        Ok((farm, schedule)) => play_farm(alloc, farm, &schedule),
        Err(refusal) => refuse_farm(alloc, refusal),
    }
}

// The answer for independent circuits and their schedule.
fn play_farm(alloc: Global, mut farm: Farm, schedule: &Schedule) -> Result<Reply, NoMemory>
    requires { AreOnBoards (length farm) schedule.now }
    ensures { IfOk result (λ r. (r.status ≡ Status.Done)
        × IsFarmText (farm_after farm schedule.now) (undoing farm schedule.now) r.text.items) }
{
    let undo = farm.play(alloc, schedule)?;
    Ok(Reply {
        text: write_farm(alloc, &farm, &undo)?,
        status: Status::Done,
    })
}

// The answer to bytes that are not circuits with a schedule.
fn refuse_farm(alloc: Global, refusal: FarmRefusal) -> Result<Reply, NoMemory>
    ensures { IfOk result (λ r. IsFarmRefused refusal r.status r.text.items) }
{
    match refusal {
        FarmRefusal::NoSchedule => {
            let line = format!(in alloc; "text: no schedule\n")?;
            Ok(Reply::of_fault(line.into_bytes()))
        }
        FarmRefusal::Board { board, fault } => {
            Ok(Reply::of_fault(refuse_board(alloc, board, fault)?))
        }
        FarmRefusal::Form { line } => Ok(Reply::of_fault(refuse_line(alloc, line, "form")?)),
        FarmRefusal::NoBoard { line } => Ok(Reply::of_fault(refuse_line(alloc, line, "board")?)),
        FarmRefusal::Elements { count } => Ok(Reply {
            text: format!(in alloc; "size: elements {count}\n")?.into_bytes(),
            status: Status::Size,
        }),
        FarmRefusal::NoMemory => Err(NoMemory),
    }
}

// The line of a circuit's first fault.
fn refuse_board(alloc: Global, board: u32, fault: NetlistRefusal) -> Result<Vec<u8>, NoMemory>
    ensures { IfOk result (λ text. IsBoardRefused board fault text.items) }
{
    match fault {
        NetlistRefusal::Syntax { line } => board_line(alloc, board, line, "syntax"),
        NetlistRefusal::Order { line } => board_line(alloc, board, line, "order"),
        NetlistRefusal::Target { line } => board_line(alloc, board, line, "target"),
        NetlistRefusal::TwoSources { line } => board_line(alloc, board, line, "two sources"),
        NetlistRefusal::StartFed { line } => board_line(alloc, board, line, "start fed"),
        NetlistRefusal::EndWired { line } => board_line(alloc, board, line, "end wired"),
        NetlistRefusal::LeftWired { line } => board_line(alloc, board, line, "left wired"),
        NetlistRefusal::TooMany { line } => board_line(alloc, board, line, "too many"),
        NetlistRefusal::Spelling { line } => board_line(alloc, board, line, "spelling"),
        NetlistRefusal::NoMemory => Err(NoMemory),
    }
}

// The line that refuses a circuit for a fault of one of its lines.
fn board_line(alloc: Global, board: u32, line: u64, what: &str) -> Result<Vec<u8>, NoMemory>
    ensures { IfOk result (λ text. text.items ≡ board_fault_text board line what.now) }
{
    Ok(format!(in alloc; "text: board {board} line {line} {what}\n")?.into_bytes())
}

// The line that refuses a schedule for a fault of one of its lines.
fn refuse_line(alloc: Global, line: u64, what: &str) -> Result<Vec<u8>, NoMemory>
    ensures { IfOk result (λ text. text.items ≡ schedule_fault_text line what.now) }
{
    Ok(format!(in alloc; "text: schedule line {line} {what}\n")?.into_bytes())
}
