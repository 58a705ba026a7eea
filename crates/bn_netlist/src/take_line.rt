//! Taking the lines of entries from their bytes.

ghost use Rattle.std.specs.Prelude.{◌≡◌, ◌+◌, ◌<◌, ◌≤◌, ◌++◌, ◌∷◌, [], List, OnOk, IfErr, None};
ghost use Rattle.bn_circuits.specs.declared.net.TheConstants.{MOST_ELEMENTS};
ghost use Rattle.bn_netlist.specs.Drafting.{IsSized};
ghost use Rattle.bn_netlist_laws.specs.Sentences.{Sentence};
ghost use Rattle.bn_netlist_laws.specs.Spelling.{header_then};
ghost use Rattle.bn_netlist.specs.Drafting.{Holds};
ghost use Rattle.bn_netlist_laws.specs.Reading.{element_of};
ghost use Rattle.bn_netlist.specs.LineReading.{TakesLine, RefusesLine};

use crate::entries::Entries;
use crate::forms::{column_of, element_of, sides_of};
use crate::line_refusal::NetlistRefusal;
use bn_netlist_laws::{Header, Version};
use std::alloc::Global;

impl Entries {
    /// Takes the next line, without its byte 10.
    pub fn take_line(
        &mut self,
        alloc: Global,
        header: &Header,
        line: &[u8],
    ) -> Result<(), NetlistRefusal>
        requires sized { IsSized header.now.count self.old.ends.drawn self.old.ends.fed.items }
        requires few { header.now.count ≤ MOST_ELEMENTS }
        requires room { self.old.lines < header.now.count }
        requires begun { 0 < self.old.rows → 0 < self.old.lines }
        ensures read { OnOk result ((rows : List Sentence)
            → Holds header.now rows self.old.lines self.old.rows self.old.states.items self.old.own.items
            self.old.ends.drawn self.old.ends.fed.items
            → (x : Sentence) × TakesLine (header_then header.now rows) line.now x
            × Holds header.now (rows ++ x ∷ []) self.new.lines self.new.rows self.new.states.items
            self.new.own.items self.new.ends.drawn self.new.ends.fed.items) }
        ensures refused { IfErr result (λ r. (rows : List Sentence)
            → Holds header.now rows self.old.lines self.old.rows self.old.states.items self.old.own.items
            self.old.ends.drawn self.old.ends.fed.items
            → RefusesLine (header_then header.now rows) line.now r) }
    {
        if self.rows > 0 {
            self.take_row_line(header, line)
        } else {
            self.take_entry_line(alloc, header, line)
        }
    }

    // Takes the line of a row.
    fn take_row_line(&mut self, header: &Header, line: &[u8]) -> Result<(), NetlistRefusal>
        requires sized { IsSized header.now.count self.old.ends.drawn self.old.ends.fed.items }
        requires few { header.now.count ≤ MOST_ELEMENTS }
        requires room { self.old.lines < header.now.count }
        requires some { 0 < self.old.rows }
        requires begun { 0 < self.old.lines }
        ensures read { OnOk result ((rows : List Sentence)
            → Holds header.now rows self.old.lines self.old.rows self.old.states.items self.old.own.items
            self.old.ends.drawn self.old.ends.fed.items
            → (x : Sentence) × TakesLine (header_then header.now rows) line.now x
            × Holds header.now (rows ++ x ∷ []) self.new.lines self.new.rows self.new.states.items
            self.new.own.items self.new.ends.drawn self.new.ends.fed.items) }
        ensures refused { IfErr result (λ r. (rows : List Sentence)
            → Holds header.now rows self.old.lines self.old.rows self.old.states.items self.old.own.items
            self.old.ends.drawn self.old.ends.fed.items
            → RefusesLine (header_then header.now rows) line.now r) }
    {
        let Some((east, west)) = sides_of(line) else {
            return Err(NetlistRefusal::Syntax {
                line: u64::from(self.lines) + 7,
            });
        };
        self.take_row(header, east, west)
    }

    // Takes the line of an element or of a column.
    fn take_entry_line(
        &mut self,
        alloc: Global,
        header: &Header,
        line: &[u8],
    ) -> Result<(), NetlistRefusal>
        requires sized { IsSized header.now.count self.old.ends.drawn self.old.ends.fed.items }
        requires few { header.now.count ≤ MOST_ELEMENTS }
        requires room { self.old.lines < header.now.count }
        requires none { self.old.rows ≡ 0 }
        ensures read { OnOk result ((rows : List Sentence)
            → Holds header.now rows self.old.lines self.old.rows self.old.states.items self.old.own.items
            self.old.ends.drawn self.old.ends.fed.items
            → (x : Sentence) × TakesLine (header_then header.now rows) line.now x
            × Holds header.now (rows ++ x ∷ []) self.new.lines self.new.rows self.new.states.items
            self.new.own.items self.new.ends.drawn self.new.ends.fed.items) }
        ensures refused { IfErr result (λ r. (rows : List Sentence)
            → Holds header.now rows self.old.lines self.old.rows self.old.states.items self.old.own.items
            self.old.ends.drawn self.old.ends.fed.items
            → RefusesLine (header_then header.now rows) line.now r) }
    {
        match element_of(line) {
            Some(row) => self.take_element(header, row.number, row.state, &row.targets),
            None => self.take_column_line(alloc, header, line),
        }
    }

    // Takes the line of a column, for a line that is not that of an element.
    fn take_column_line(
        &mut self,
        alloc: Global,
        header: &Header,
        line: &[u8],
    ) -> Result<(), NetlistRefusal>
        requires sized { IsSized header.now.count self.old.ends.drawn self.old.ends.fed.items }
        requires few { header.now.count ≤ MOST_ELEMENTS }
        requires room { self.old.lines < header.now.count }
        requires none { self.old.rows ≡ 0 }
        requires other { element_of line.now ≡ None }
        ensures read { OnOk result ((rows : List Sentence)
            → Holds header.now rows self.old.lines self.old.rows self.old.states.items self.old.own.items
            self.old.ends.drawn self.old.ends.fed.items
            → (x : Sentence) × TakesLine (header_then header.now rows) line.now x
            × Holds header.now (rows ++ x ∷ []) self.new.lines self.new.rows self.new.states.items
            self.new.own.items self.new.ends.drawn self.new.ends.fed.items) }
        ensures refused { IfErr result (λ r. (rows : List Sentence)
            → Holds header.now rows self.old.lines self.old.rows self.old.states.items self.old.own.items
            self.old.ends.drawn self.old.ends.fed.items
            → RefusesLine (header_then header.now rows) line.now r) }
    {
        let here = u64::from(self.lines) + 7;
        match header.version {
            Version::One => Err(NetlistRefusal::Syntax { line: here }),
            Version::Two => {
                let Some((number, rows, state)) = column_of(line) else {
                    return Err(NetlistRefusal::Syntax { line: here });
                };
                if rows == 0 {
                    return Err(NetlistRefusal::Syntax { line: here });
                }
                self.take_column(alloc, header, number, rows, state)
            }
        }
    }
}
