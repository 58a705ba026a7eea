//! Reading a farm with a schedule.

ghost use Rattle.std.specs.Prelude.{◌≡◌, ◌≢◌, ℕ, ◌+◌, ◌<◌, ◌≤◌, ◌^◌, List, length, map, IfOk, IfErr, OnOk};
ghost use Rattle.bn_farm.specs.Farms.{board_of, elements_together, IsFarm};
ghost use Rattle.bn_farm.specs.FarmRead.{HasPushed, IsFarmRead, IsFarmRefusal, IsPartRefusal, IsRestRead};
ghost use Rattle.bn_farm.specs.FarmRead.{IsRestRefusal, IsUnspelled};
ghost use Rattle.bn_netlist.specs.NetText.{IsTextRefusal};

use crate::farm::Farm;
use crate::farm_refusal::FarmRefusal;
use crate::refusal::ScheduleRefusal;
use crate::schedule::Schedule;
use crate::schedule_reader::read_schedule;
use bn_base::cut_input;
use bn_circuits::MOST_ELEMENTS;
use bn_netlist::{NetConfig, NetlistRefusal, read_config};
use std::alloc::Global;

/// The greatest number of bytes of a farm with a schedule that is read: 256 MiB (this project's own definition).
pub const MOST_FARM_BYTES: u64 = 268_435_456;

/// Reads a farm with a schedule: the part before each line that is exactly `%` with its byte 10 is a circuit, and the
/// part after the last one is the schedule. A refusal names the first of these faults: no line is `%`; a faulty
/// circuit, with its first error; a faulty line of the schedule, with its first error; too many elements of all
/// circuits together. (This project's own definition.)
pub fn read_farm(alloc: Global, bytes: &[u8]) -> Result<(Farm, Schedule), FarmRefusal>
    requires { length bytes.now ≤ MOST_FARM_BYTES }
    ensures read { IfOk result (λ r. IsFarmRead bytes.now r.0 r.1) }
    ensures refused { IfErr result (IsFarmRefusal bytes.now) }
{
    let mut boards = Vec::new(alloc);
    let mut left = bytes;
    while let Some((part, behind)) = cut_input(left) {
        if let Err(refusal) = push_part(alloc, &mut boards, part) {
            return Err(refusal);
        }
        left = behind;
    }
    if boards.is_empty() {
        return Err(FarmRefusal::NoSchedule);
    }
    with_schedule(alloc, boards, left)
}

// Reads one more circuit.
fn push_part(alloc: Global, boards: &mut Vec<NetConfig>, part: &[u8]) -> Result<(), FarmRefusal>
    requires { length boards.old.items + 1 < 2 ^ 32 }
    ensures read { OnOk result (HasPushed boards.old.items part.now boards.new.items) }
    ensures refused { IfErr result (IsPartRefusal part.now (length boards.old.items + 1)) }
{
    let number = boards.len() as u32 + 1;
    let board = match read_config(alloc, part) {
        Ok(board) => board,
        Err(fault) => return Err(refusal_of(number, fault)),
    };
    match boards.push(board) {
        Ok(()) => Ok(()),
        Err(_) => Err(FarmRefusal::NoMemory),
    }
}

// The refusal of a part that is the circuit of this number, counted from 1.
fn refusal_of(number: u32, fault: NetlistRefusal) -> FarmRefusal
    ensures { (part : List ℕ) → IsTextRefusal part fault → (fault ≢ NetlistRefusal.NoMemory → IsUnspelled part)
        → IsPartRefusal part number result }
{
    if fault == NetlistRefusal::NoMemory {
        return FarmRefusal::NoMemory;
    }
    FarmRefusal::Board {
        board: number,
        fault,
    }
}

// Reads the schedule of a farm of these circuits, and counts their elements.
fn with_schedule(
    alloc: Global,
    boards: Vec<NetConfig>,
    bytes: &[u8],
) -> Result<(Farm, Schedule), FarmRefusal>
    requires farm { IsFarm (map board_of boards.items) }
    requires few { length boards.items < 2 ^ 32 }
    ensures read { IfOk result (λ r. IsRestRead (map board_of boards.items) bytes.now r.0 r.1) }
    ensures refused { IfErr result (IsRestRefusal (map board_of boards.items) bytes.now) }
{
    match read_schedule(alloc, bytes, boards.len() as u32) {
        Ok(schedule) => {
            let count = count_elements(boards.as_slice());
            if count > MOST_ELEMENTS {
                Err(FarmRefusal::Elements { count })
            } else {
                Ok((Farm::new(boards), schedule))
            }
        }
        Err(ScheduleRefusal::Form { line }) => Err(FarmRefusal::Form { line }),
        Err(ScheduleRefusal::NoBoard { line }) => Err(FarmRefusal::NoBoard { line }),
        Err(ScheduleRefusal::NoMemory) => Err(FarmRefusal::NoMemory),
    }
}

// The number of elements of some circuits together.
fn count_elements(boards: &[NetConfig]) -> u64
    requires farm { IsFarm (map board_of boards.now) }
    requires few { length boards.now < 2 ^ 32 }
    ensures { result ≡ elements_together (map board_of boards.now) }
{
    let mut count = 0;
    for board in boards {
        count += u64::from(board.net.len());
    }
    count
}
