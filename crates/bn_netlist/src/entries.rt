//! The entries of a configuration text that have been read so far.

ghost use Rattle.std.specs.Prelude.{◌≡◌, ◌+◌, ◌<◌, ◌≤◌, ◌++◌, ◌∷◌, [], List, length, OnOk, IfOk, IfErr, replicate};
ghost use Rattle.std.specs.Prelude.{None, false};
ghost use Rattle.bn_circuits.specs.declared.net.TheConstants.{MOST_ELEMENTS};
ghost use Rattle.bn_base.specs.Number.{greatest};
ghost use Rattle.bn_netlist_laws.specs.Sentences.{AreNameable};
ghost use Rattle.bn_netlist_laws.specs.Reading.{named_target, named_targets};
ghost use Rattle.bn_netlist.specs.Drafting.{IsSized};
ghost use Rattle.bn_netlist_laws.specs.Sentences.{Sentence, Element, Column, Row};
ghost use Rattle.bn_netlist_laws.specs.Faults.{fault_of};
ghost use Rattle.bn_netlist_laws.specs.Spelling.{header_then};
ghost use Rattle.bn_netlist_laws.specs.declared.header.Header.{Header};
ghost use Rattle.bn_netlist.specs.Drafting.{Holds, Reads, RefusesBy};

use crate::draft::Draft;
use crate::line_refusal::NetlistRefusal;
use bn_element::{EAST, NORTH, VERTICAL};
use bn_netlist_laws::Header;
use std::alloc::Global;

/// The states and the wires of the entries read so far.
#[derive(Drop)]
pub struct Entries {
    /// The state of each element.
    pub(crate) states: Vec<u32>,
    /// Whether each element has a line of its own.
    pub(crate) own: Vec<bool>,
    /// The wires read so far.
    pub(crate) ends: Draft,
    /// The number of rows that are left of the column being read.
    pub(crate) rows: u32,
    /// The number of lines read. Each of them accounts for one element.
    pub(crate) lines: u32,
}

impl Entries {
    /// No entries yet, with memory for this many elements.
    pub fn new(alloc: Global, count: u32) -> Result<Entries, NetlistRefusal>
        requires { count ≤ MOST_ELEMENTS }
        ensures none { IfOk result (λ e. (h : Header) → h.count ≡ count
            → Holds h [] e.lines e.rows e.states.items e.own.items e.ends.drawn e.ends.fed.items) }
        ensures refused { IfErr result (λ r. r ≡ NetlistRefusal.NoMemory) }
    {
        let Ok(states) = Vec::with_capacity(alloc, count as usize) else {
            return Err(NetlistRefusal::NoMemory);
        };
        let Ok(own) = Vec::with_capacity(alloc, count as usize) else {
            return Err(NetlistRefusal::NoMemory);
        };
        let ends = Draft::new(alloc, count)?;
        Ok(Entries {
            states,
            own,
            ends,
            rows: 0,
            lines: 0,
        })
    }

    /// Takes the line of a row, given where its east and its west output lead.
    pub fn take_row(
        &mut self,
        header: &Header,
        east: Option<(u64, u32)>,
        west: Option<(u64, u32)>,
    ) -> Result<(), NetlistRefusal>
        requires sized { IsSized header.now.count self.old.ends.drawn self.old.ends.fed.items }
        requires nameable { AreNameable (named_targets (east ∷ None ∷ west ∷ [])) }
        requires few { header.now.count ≤ MOST_ELEMENTS }
        requires some { 0 < self.old.rows }
        requires begun { 0 < self.old.lines }
        requires room { self.old.lines < header.now.count }
        ensures read { OnOk result ((rows : List Sentence)
            → Holds header.now rows self.old.lines self.old.rows self.old.states.items self.old.own.items
            self.old.ends.drawn self.old.ends.fed.items
            → Reads header.now rows (Row (named_target east) (named_target west))
            self.new.lines self.new.rows self.new.states.items self.new.own.items
            self.new.ends.drawn self.new.ends.fed.items) }
        ensures refused { IfErr result (λ r. (rows : List Sentence)
            → Holds header.now rows self.old.lines self.old.rows self.old.states.items self.old.own.items
            self.old.ends.drawn self.old.ends.fed.items
            → RefusesBy (fault_of (header_then header.now rows) (Row (named_target east) (named_target west)))
            (length rows + 7) r) }
    {
        let line = u64::from(self.lines) + 7;
        let targets = [east, None, west];
        self.ends
            .connect_all(header, self.lines - 1, EAST, &targets, line)?;
        self.rows -= 1;
        self.lines += 1;
        Ok(())
    }

    /// Takes the line of an element.
    pub fn take_element(
        &mut self,
        header: &Header,
        number: u64,
        state: u32,
        targets: &[Option<(u64, u32)>; 4],
    ) -> Result<(), NetlistRefusal>
        requires sized { IsSized header.now.count self.old.ends.drawn self.old.ends.fed.items }
        requires nameable { AreNameable (named_targets targets.now) }
        requires few { header.now.count ≤ MOST_ELEMENTS }
        requires room { self.old.lines < header.now.count }
        ensures read { OnOk result ((rows : List Sentence)
            → Holds header.now rows self.old.lines self.old.rows self.old.states.items self.old.own.items
            self.old.ends.drawn self.old.ends.fed.items
            → Reads header.now rows (Element number state (named_targets targets.now))
            self.new.lines self.new.rows self.new.states.items self.new.own.items
            self.new.ends.drawn self.new.ends.fed.items) }
        ensures refused { IfErr result (λ r. (rows : List Sentence)
            → Holds header.now rows self.old.lines self.old.rows self.old.states.items self.old.own.items
            self.old.ends.drawn self.old.ends.fed.items
            → RefusesBy (fault_of (header_then header.now rows) (Element number state (named_targets targets.now)))
            (length rows + 7) r) }
    {
        let line = u64::from(self.lines) + 7;
        if number != u64::from(self.lines) {
            return Err(NetlistRefusal::Order { line });
        }
        let Ok(()) = self.states.push(state) else {
            return Err(NetlistRefusal::NoMemory);
        };
        let Ok(()) = self.own.push(true) else {
            return Err(NetlistRefusal::NoMemory);
        };
        self.ends
            .connect_all(header, self.lines, NORTH, targets, line)?;
        self.lines += 1;
        Ok(())
    }

    /// Takes the line of a column.
    pub fn take_column(
        &mut self,
        alloc: Global,
        header: &Header,
        number: u64,
        rows: u64,
        state: u32,
    ) -> Result<(), NetlistRefusal>
        requires sized { IsSized header.now.count self.old.ends.drawn self.old.ends.fed.items }
        requires few { header.now.count ≤ MOST_ELEMENTS }
        requires some { 0 < rows }
        requires small { rows ≤ greatest }
        requires room { self.old.lines < header.now.count }
        ensures read { OnOk result ((done : List Sentence)
            → Holds header.now done self.old.lines self.old.rows self.old.states.items self.old.own.items
            self.old.ends.drawn self.old.ends.fed.items
            → Reads header.now done (Column number rows state)
            self.new.lines self.new.rows self.new.states.items self.new.own.items
            self.new.ends.drawn self.new.ends.fed.items) }
        ensures refused { IfErr result (λ r. (done : List Sentence)
            → Holds header.now done self.old.lines self.old.rows self.old.states.items self.old.own.items
            self.old.ends.drawn self.old.ends.fed.items
            → RefusesBy (fault_of (header_then header.now done) (Column number rows state))
            (length done + 7) r) }
    {
        let line = u64::from(self.lines) + 7;
        if number != u64::from(self.lines) {
            return Err(NetlistRefusal::Order { line });
        }
        self.ends.connect_column(alloc, header, self.lines, rows)?;
        self.push_states(rows as u32, state)?;
        self.rows = rows as u32;
        self.lines += 1;
        Ok(())
    }

    // Appends the states of a column: vertical bars for its rows, and this state for its bottom. None of its elements
    // has a line of its own.
    fn push_states(&mut self, rows: u32, state: u32) -> Result<(), NetlistRefusal>
        ensures states { OnOk result (self.new.states.items
            ≡ self.old.states.items ++ (replicate rows 1 ++ state ∷ [])) }
        ensures own { OnOk result (self.new.own.items
            ≡ self.old.own.items ++ (replicate rows false ++ false ∷ [])) }
        ensures drawn { self.new.ends.drawn ≡ self.old.ends.drawn }
        ensures marks { self.new.ends.fed.items ≡ self.old.ends.fed.items }
        ensures lines { self.new.lines ≡ self.old.lines }
        ensures refused { IfErr result (λ r. r ≡ NetlistRefusal.NoMemory) }
    {
        for row in 0..rows {
            let Ok(()) = self.states.push(VERTICAL) else {
                return Err(NetlistRefusal::NoMemory);
            };
            let Ok(()) = self.own.push(false) else {
                return Err(NetlistRefusal::NoMemory);
            };
        }
        let Ok(()) = self.states.push(state) else {
            return Err(NetlistRefusal::NoMemory);
        };
        let Ok(()) = self.own.push(false) else {
            return Err(NetlistRefusal::NoMemory);
        };
        Ok(())
    }
}
