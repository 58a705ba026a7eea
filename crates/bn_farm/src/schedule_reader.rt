//! Reading a schedule.

ghost use Rattle.std.specs.Prelude.{◌≡◌, ◌+◌, IfOk, IfErr};
ghost use Rattle.bn_farm.specs.FarmTexts.{IsSchedule};
ghost use Rattle.bn_farm.specs.Refused.{IsScheduleRefusal};

use crate::event::Event;
use crate::refusal::ScheduleRefusal;
use crate::schedule::Schedule;
use crate::take_order::take_order;
use bn_netlist::Cursor;
use std::alloc::Global;

/// Reads the schedule of a farm of this many circuits. A refusal names the first faulty line, counted from 1, and its
/// first error. (This project's own definition.)
pub(crate) fn read_schedule(
    alloc: Global,
    bytes: &[u8],
    boards: u32,
) -> Result<Schedule, ScheduleRefusal>
    ensures read { IfOk result (λ s. IsSchedule boards bytes.now s) }
    ensures refused { IfErr result (IsScheduleRefusal boards bytes.now) }
{
    let mut cursor = Cursor::new(bytes);
    let mut events = Vec::new(alloc);
    while !cursor.is_at_end() {
        let line = events.len() as u64 + 1;
        let Some(order) = take_order(&mut cursor) else {
            return Err(ScheduleRefusal::Form { line });
        };
        if order.number == 0 || order.number > u64::from(boards) {
            return Err(ScheduleRefusal::NoBoard { line });
        }
        let event = Event {
            forward: order.forward,
            board: (order.number - 1) as u32,
            count: order.count,
        };
        let Ok(()) = events.push(event) else {
            return Err(ScheduleRefusal::NoMemory);
        };
    }
    Ok(Schedule::new(events))
}
