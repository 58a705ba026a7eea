//! The input of the commands on two tables: both are read and joined over one alphabet, and both machines are tested.

ghost use Rattle.std.specs.Prelude.{◌≡◌, ◌<◌, ◌==◌, Contains, IfOk, IfNone, IfSome, length, position};
ghost use Rattle.bn_reply_erase.specs.Opened.{AreOpened, IsJudgedPair, IsOpenedPair, IsOpenedSecond};
ghost use Rattle.bn_reply_erase.specs.Pairs.{with_second};

use bn_base::cut_input;
use bn_erase::{Joined, join_letters};
use bn_lists::NoMemory;
use bn_machine::{Standard, check};
use bn_reply::{OpenedTable, Reply, Status, open_table, why_text};
use bn_table::Table;
use std::alloc::Global;

/// The machines of two tables over one alphabet, or the answer to an input that is not two tables.
#[derive(Drop)]
pub(crate) enum OpenedPair {
    /// The two machines.
    Joined(Joined),
    /// The answer if there are not two tables.
    Refused(Reply),
}

/// Two machines in standard form, or the answer if one of them is not in that form.
#[derive(Drop)]
pub(crate) enum JudgedPair<'a> {
    /// The first machine and the second.
    Standard(Standard<'a>, Standard<'a>),
    /// The answer if one is not in standard form.
    Refused(Reply),
}

/// Reads the bytes as a table, a line `%` and a second table, and takes their machines over one alphabet.
pub(crate) fn open_pair(alloc: Global, bytes: &[u8]) -> Result<OpenedPair, NoMemory>
    ensures { IfOk result (IsOpenedPair bytes.now) }
{
    match cut_input(bytes) {
        Some((first, second)) => open_tables(alloc, first, second),
        None => Ok(OpenedPair::Refused(Reply {
            text: String::from_str(alloc, "text: no second\n")?.into_bytes(),
            status: Status::Text,
        })),
    }
}

// Reads two tables.
fn open_tables(alloc: Global, first: &[u8], second: &[u8]) -> Result<OpenedPair, NoMemory>
    ensures { IfOk result (AreOpened first.now second.now) }
{
    match open_table(alloc, first)? {
        OpenedTable::Refused(reply) => Ok(OpenedPair::Refused(reply)),
        OpenedTable::Read(first) => open_second(alloc, &first, second),
    }
}

// Reads the second table.
fn open_second(alloc: Global, first: &Table, bytes: &[u8]) -> Result<OpenedPair, NoMemory>
    ensures { IfOk result (IsOpenedSecond first.now bytes.now) }
{
    match open_table(alloc, bytes)? {
        OpenedTable::Refused(reply) => Ok(OpenedPair::Refused(tell_second(alloc, &reply)?)),
        OpenedTable::Read(second) => {
            let joined = join_letters(alloc, first, &second)?;
            Ok(OpenedPair::Joined(joined))
        }
    }
}

/// Tests the standard form of both machines, the first one's first.
pub(crate) fn judge_pair(alloc: Global, joined: &Joined) -> Result<JudgedPair<'_>, NoMemory>
    ensures { IfOk result (IsJudgedPair joined.now) }
{
    let first = match check(alloc, joined.first()) {
        Ok(standard) => standard,
        Err(why) => {
            return Ok(JudgedPair::Refused(Reply {
                text: why_text(alloc, why)?,
                status: Status::Machine,
            }));
        }
    };
    match check(alloc, joined.second()) {
        Ok(second) => Ok(JudgedPair::Standard(first, second)),
        Err(why) => {
            let reply = Reply {
                text: why_text(alloc, why)?,
                status: Status::Machine,
            };
            Ok(JudgedPair::Refused(tell_second(alloc, &reply)?))
        }
    }
}

// The refusal as one of the second table: `second` and a space follow its first space.
fn tell_second(alloc: Global, reply: &Reply) -> Result<Reply, NoMemory>
    ensures status { IfOk result (λ r. r.status ≡ reply.now.status) }
    ensures text { IfOk result (λ r. r.text.items ≡ with_second reply.now.text.items) }
{
    let told = reply.text.as_slice();
    let behind = match first_space(told) {
        Some(space) => space + 1,
        None => return Ok(Reply {
            text: Vec::from_slice(alloc, told)?,
            status: reply.status,
        }),
    };
    let mut text = Vec::from_slice(alloc, &told[..behind])?;
    text.extend_from_slice(b"second ")?;
    text.extend_from_slice(&told[behind..])?;
    Ok(Reply {
        text,
        status: reply.status,
    })
}

// The place of the first space, counted from 0.
fn first_space(told: &[u8]) -> Option<usize>
    ensures place { result ≡ position (λ byte. byte == 32) told.now }
    ensures within { IfSome result (λ place. place < length told.now) }
    ensures none { IfNone result (¬ Contains told.now 32) }
{
    told.iter().position(|byte| *byte == b' ')
}
