//! Refusals of a schedule.

/// Why bytes are not a schedule of a farm.
#[derive(Debug, Drop)]
pub(crate) enum ScheduleRefusal {
    /// This line is malformed.
    Form {
        /// The line, counted from 1.
        line: u64,
    },
    /// The farm has no circuit with the number in this line.
    NoBoard {
        /// The line, counted from 1.
        line: u64,
    },
    /// Memory ran out.
    NoMemory,
}
