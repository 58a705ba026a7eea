//! A configuration text, read line by line.

ghost use Rattle.std.specs.Prelude.{◌≡◌, ◌+◌, ℕ, List, ◌++◌, ◌≢◌, [], length, IfOk, IfErr, OnOk};
ghost use Rattle.bn_base.specs.Line.{IsInLine};
ghost use Rattle.bn_netlist_laws.specs.Sentences.{Sentence, lines_text};
ghost use Rattle.bn_netlist_laws.specs.Spelling.{Spelled};
ghost use Rattle.bn_netlist.specs.LineReading.{RefusesLine};
ghost use Rattle.bn_netlist.specs.NetText.{IsTextRefusal};
ghost use Rattle.bn_netlist.specs.Stages.{AreTaken, HasTaken, TakesTo};

use crate::entries::Entries;
use crate::from_wires::FromWires;
use crate::header_lines::{take_count, take_end, take_place, take_start, take_steps, take_title};
use crate::line_refusal::NetlistRefusal;
use bn_circuits::Line;
use bn_netlist_laws::{Header, Version};
use std::alloc::Global;
use std::mem;

/// The state of reading a configuration text: which line comes next, and the contents of the lines before it.
#[derive(Drop)]
pub enum Stage {
    /// The title comes next.
    Title,
    /// The number of elements comes next.
    Count {
        /// The version.
        version: Version,
    },
    /// The start comes next.
    Start {
        /// The version.
        version: Version,
        /// The number of elements.
        count: u32,
    },
    /// The end comes next.
    End {
        /// The version.
        version: Version,
        /// The number of elements.
        count: u32,
        /// The start.
        start: Line,
    },
    /// The count of element steps comes next.
    Steps {
        /// The version.
        version: Version,
        /// The number of elements.
        count: u32,
        /// The start.
        start: Line,
        /// The end.
        end: Line,
    },
    /// The place of the signal comes next.
    Place {
        /// The version.
        version: Version,
        /// The number of elements.
        count: u32,
        /// The start.
        start: Line,
        /// The end.
        end: Line,
        /// The steps made.
        steps: u64,
    },
    /// A line of an entry comes next, or the end of the text.
    Entries {
        /// The header.
        header: Header,
        /// The entries so far.
        entries: Entries,
    },
}

impl Stage {
    /// Takes the next line, without its byte 10.
    pub fn take(self, alloc: Global, line: &[u8]) -> Result<Stage, NetlistRefusal>
        requires { HasTaken self }
        ensures taken { IfOk result (λ next. (lines : List Sentence) → AreTaken lines self
            → TakesTo lines line.now next) }
        ensures refused { IfErr result (λ r. (lines : List Sentence) → AreTaken lines self
            → RefusesLine lines line.now r) }
    {
        match self {
            Stage::Title => {
                let version = take_title(line)?;
                Ok(Stage::Count { version })
            }
            Stage::Count { version } => {
                let count = take_count(line, version)?;
                Ok(Stage::Start { version, count })
            }
            Stage::Start { version, count } => {
                let start = take_start(line, version, count)?;
                Ok(Stage::End {
                    version,
                    count,
                    start,
                })
            }
            Stage::End {
                version,
                count,
                start,
            } => {
                let end = take_end(line, version, count, start)?;
                Ok(Stage::Steps {
                    version,
                    count,
                    start,
                    end,
                })
            }
            Stage::Steps {
                version,
                count,
                start,
                end,
            } => {
                let steps = take_steps(line, version, count, start, end)?;
                Ok(Stage::Place {
                    version,
                    count,
                    start,
                    end,
                    steps,
                })
            }
            Stage::Place {
                version,
                count,
                start,
                end,
                steps,
            } => {
                let place = take_place(line, version, count, start, end, steps)?;
                let header = Header {
                    version,
                    count,
                    start,
                    end,
                    steps,
                    place,
                };
                let entries = Entries::new(alloc, count)?;
                Ok(Stage::Entries { header, entries })
            }
            Stage::Entries { header, entries } => {
                let mut entries = entries;
                take_entry(alloc, &header, &mut entries, line)?;
                Ok(Stage::Entries { header, entries })
            }
        }
    }

    /// Takes the next line as `take` does, in place. After a refused line the stage is unspecified.
    pub(crate) fn advance(&mut self, alloc: Global, line: &[u8]) -> Result<(), NetlistRefusal>
        requires { HasTaken self.old }
        ensures taken { OnOk result ((lines : List Sentence) → AreTaken lines self.old
            → TakesTo lines line.now self.new) }
        ensures refused { IfErr result (λ r. (lines : List Sentence) → AreTaken lines self.old
            → RefusesLine lines line.now r) }
    {
        match self {
            Stage::Entries { header, entries } => take_entry(alloc, header, entries, line),
            _ => self.advance_header(alloc, line),
        }
    }

    // The same for a line of the header, by `take`.
    fn advance_header(&mut self, alloc: Global, line: &[u8]) -> Result<(), NetlistRefusal>
        requires { HasTaken self.old }
        ensures taken { OnOk result ((lines : List Sentence) → AreTaken lines self.old
            → TakesTo lines line.now self.new) }
        ensures refused { IfErr result (λ r. (lines : List Sentence) → AreTaken lines self.old
            → RefusesLine lines line.now r) }
    {
        let stage = mem::replace(self, Stage::Title);
        *self = stage.take(alloc, line)?;
        Ok(())
    }

    /// The number of the line that comes next, from 1.
    pub fn next_line(&self) -> u64
        ensures { (lines : List Sentence) → AreTaken lines self.now → result ≡ length lines + 1 }
    {
        match self {
            Stage::Title => 1,
            Stage::Count { .. } => 2,
            Stage::Start { .. } => 3,
            Stage::End { .. } => 4,
            Stage::Steps { .. } => 5,
            Stage::Place { .. } => 6,
            Stage::Entries { entries, .. } => u64::from(entries.lines) + 7,
        }
    }

    /// The configuration of a text that ends here.
    pub fn finish<C: FromWires>(self, alloc: Global) -> Result<C, NetlistRefusal>
        requires { HasTaken self }
        ensures spelled { IfOk result (λ c. (lines : List Sentence) → AreTaken lines self
            → Spelled (C.version c) (C.spelling c) (lines_text lines)) }
        ensures refused { IfErr result (λ r. (lines : List Sentence) → AreTaken lines self
            → IsTextRefusal (lines_text lines) r) }
    {
        let line = self.next_line();
        match self {
            Stage::Entries { header, entries } => finish_entries(alloc, &header, entries),
            _ => Err(NetlistRefusal::Syntax { line }),
        }
    }
}

// Takes a line after the header.
fn take_entry(
    alloc: Global,
    header: &Header,
    entries: &mut Entries,
    line: &[u8],
) -> Result<(), NetlistRefusal>
    requires { HasTaken (Stage.Entries header.now entries.old) }
    ensures taken { OnOk result ((lines : List Sentence) → AreTaken lines (Stage.Entries header.now entries.old)
        → TakesTo lines line.now (Stage.Entries header.now entries.new)) }
    ensures refused { IfErr result (λ r. (lines : List Sentence)
        → AreTaken lines (Stage.Entries header.now entries.old) → RefusesLine lines line.now r) }
{
    if entries.lines >= header.count {
        return Err(NetlistRefusal::Syntax {
            line: u64::from(entries.lines) + 7,
        });
    }
    entries.take_line(alloc, header, line)
}

// The configuration of a text that ends after these entries.
fn finish_entries<C: FromWires>(
    alloc: Global,
    header: &Header,
    entries: Entries,
) -> Result<C, NetlistRefusal>
    requires { HasTaken (Stage.Entries header.now entries) }
    ensures spelled { IfOk result (λ c. (lines : List Sentence) → AreTaken lines (Stage.Entries header.now entries)
        → Spelled (C.version c) (C.spelling c) (lines_text lines)) }
    ensures refused { IfErr result (λ r. (lines : List Sentence) → AreTaken lines (Stage.Entries header.now entries)
        → IsTextRefusal (lines_text lines) r) }
{
    if entries.lines < header.count {
        return Err(NetlistRefusal::Syntax {
            line: u64::from(entries.lines) + 7,
        });
    }
    entries.into_config(alloc, header)
}
