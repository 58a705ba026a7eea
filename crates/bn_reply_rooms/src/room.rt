//! The command `room`.

ghost use Rattle.std.specs.Prelude.{◌≡◌, ◌≤◌, [], IfOk};
ghost use Rattle.bn_qtable.specs.TapeWords.{tape_words_of};
ghost use Rattle.bn_reply.specs.Lines.{running_line};
ghost use Rattle.bn_reply_rooms.specs.RoomReply.{RoomReplies, TellsRoom, UncrowdedReplies, no_room_line, outcome_line};
ghost use Rattle.bn_reply_rooms.specs.RoomReply.{outcome_status, room_line};
ghost use Rattle.bn_reply_rooms.specs.RoomRun.{limits_of, outcome_of};

use crate::reach::{Room, StartWords};
use crate::room_run::{Found, find_room};
use bn_base::MOST_COUNT;
use bn_lists::NoMemory;
use bn_qtable::TapeWords;
use bn_quad::QuadMachine;
use bn_reply::{Reply, Status};
use bn_reply_builds::{find_crowded, too_crowded};
use bn_reply_machines::{OpenedUniform, SpelledWords, open_uniform, spell_words};
use std::alloc::Global;

/// The answer of `room` to words on the tapes, a greatest number of steps and some bytes: the least window in which the
/// run of the table's machine from the words ends as the machine itself does, halted or stuck; or that no window has
/// room, since the head of tape 2 or 3 goes left of position 0 within these steps; or that the machine still runs after
/// them. It refuses, in this order: bytes that are no table of quadruples; a machine that is not deterministic,
/// reversible and uniform; a word with another name than those of its tape's symbols; a tape with too many symbols.
pub fn reply_room(
    alloc: Global,
    words: &TapeWords,
    most_steps: u32,
    bytes: &[u8],
) -> Result<Reply, NoMemory>
    requires { most_steps ≤ MOST_COUNT }
    ensures { IfOk result (λ r. RoomReplies (tape_words_of words.now) most_steps bytes.now r.status r.text.items []) }
{
    let (machine, names) = match open_uniform(alloc, bytes)? {
        OpenedUniform::Refused(reply) => return Ok(reply),
        OpenedUniform::Read(machine, names) => (machine, names),
    };
    let (one, two, three) = match spell_words(alloc, machine.machine(), &names, words)? {
        SpelledWords::Refused(reply) => return Ok(reply),
        SpelledWords::Symbols(one, two, three) => (one, two, three),
    };
    let symbols = StartWords {
        one: one.as_slice(),
        two: two.as_slice(),
        three: three.as_slice(),
    };
    room_of_words(alloc, machine.machine(), &symbols, most_steps)
}

// The answer to a machine and words of its symbols.
fn room_of_words(
    alloc: Global,
    machine: &QuadMachine,
    words: &StartWords<'_>,
    most_steps: u32,
) -> Result<Reply, NoMemory>
    requires { most_steps ≤ MOST_COUNT }
    ensures { IfOk result (λ r. UncrowdedReplies (TellsRoom machine.now most_steps words.now.one.now words.now.two.now
        words.now.three.now) machine.now r.status r.text.items []) }
{
    match find_crowded(machine) {
        Some(crowded) => too_crowded(alloc, crowded),
        None => tell_found(
            alloc,
            find_room(alloc, machine, words, most_steps)?,
            most_steps,
        ),
    }
}

// The answer that says what the run shows.
fn tell_found(alloc: Global, found: Found, most_steps: u32) -> Result<Reply, NoMemory>
    ensures text { IfOk result (λ r. r.text.items ≡ outcome_line most_steps (outcome_of found)) }
    ensures status { IfOk result (λ r. r.status ≡ outcome_status (outcome_of found)) }
{
    match found {
        Found::Room(room) => Ok(Reply {
            text: room_text(alloc, room)?,
            status: Status::Done,
        }),
        Found::NoRoom { tape } => Ok(Reply {
            text: no_room_text(alloc, tape)?,
            status: Status::Window,
        }),
        Found::Running => Ok(Reply {
            text: running_text(alloc, most_steps)?,
            status: Status::Inside,
        }),
    }
}

// The line of a window.
fn room_text(alloc: Global, room: Room) -> Result<Vec<u8>, NoMemory>
    ensures { IfOk result (λ text. text.items ≡ room_line (limits_of room)) }
{
    let Room {
        left1,
        right1,
        right2,
        right3,
    } = room;
    Ok(format!(in alloc; "room {left1} {right1} {right2} {right3}\n")?.into_bytes())
}

// The line that says that the head of this tape goes left of position 0.
fn no_room_text(alloc: Global, tape: u32) -> Result<Vec<u8>, NoMemory>
    ensures { IfOk result (λ text. text.items ≡ no_room_line tape) }
{
    Ok(format!(in alloc; "none {tape}\n")?.into_bytes())
}

// The line of a run that has made all its steps.
fn running_text(alloc: Global, steps: u32) -> Result<Vec<u8>, NoMemory>
    ensures { IfOk result (λ text. text.items ≡ running_line steps) }
{
    Ok(format!(in alloc; "running {steps}\n")?.into_bytes())
}
