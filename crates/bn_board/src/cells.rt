//! The tapes that the cells of a circuit show.

ghost use Rattle.std.specs.Prelude.{◌≡◌, ◌*◌, ◌<◌, ◌≤◌, IfOk, length, position};
ghost use Rattle.std.specs.List.{range_with_len};
ghost use Rattle.std.specs.Option.{option_map};
ghost use Rattle.bn_realise.specs.Banks.{column_at};
ghost use Rattle.bn_network.specs.Networks.{cells_in};
ghost use Rattle.bn_boards.specs.Layouts.{spelled_by, spelled_tape, cells_shown, head_shown, has_head, symbol_by};
ghost use Rattle.bn_boards.specs.Layouts.{marked_column, cell_state_at, symbol_count_at, elements_of};

use crate::board::Board;
use bn_boards::{Cells, Spelled, SpelledTape};
use bn_circuits::MOST_ELEMENTS;
use bn_lists::NoMemory;
use std::alloc::Global;

impl Board {
    /// The tapes that the cells show: in each cell the symbol of its first marked column, and on each tape the first
    /// cell that shows the head. `Err`: out of memory.
    pub fn cells_of(&self, alloc: Global) -> Result<Spelled, NoMemory>
        ensures { IfOk result (λ s. s ≡ spelled_by self.now.layout self.now.config.states) }
    {
        let one = self.tape_of(alloc, 1)?;
        let two = self.tape_of(alloc, 2)?;
        let three = self.tape_of(alloc, 3)?;
        Ok(Spelled { one, two, three })
    }

    // The contents of a tape, as its cells show them.
    fn tape_of(&self, alloc: Global, tape: u32) -> Result<SpelledTape, NoMemory>
        requires first { 1 ≤ tape }
        requires last { tape ≤ 3 }
        ensures { IfOk result (λ s. s ≡ spelled_tape self.now.layout self.now.config.states tape) }
    {
        let cells = self.symbols_of(alloc, tape)?;
        Ok(SpelledTape {
            first: self.layout().position(tape, 0),
            head: self.head_of(tape),
            cells,
        })
    }

    // The symbols that the cells of a tape show.
    fn symbols_of(&self, alloc: Global, tape: u32) -> Result<Cells, NoMemory>
        requires first { 1 ≤ tape }
        requires last { tape ≤ 3 }
        ensures { IfOk result (λ c. c ≡ cells_shown self.now.layout self.now.config.states tape) }
    {
        let mut symbols = Vec::new(alloc);
        for cell in 0..self.layout().cells(tape) {
            symbols.push(self.symbol_at(tape, cell))?;
        }
        Ok(Cells::new(symbols))
    }

    // The position of the first cell of a tape that shows the head.
    fn head_of(&self, tape: u32) -> Option<i64>
        requires first { 1 ≤ tape }
        requires last { tape ≤ 3 }
        ensures { result ≡ head_shown self.now.layout self.now.config.states tape }
    {
        match self.head_cell(tape) {
            Some(cell) => Some(self.layout().position(tape, cell)),
            None => None,
        }
    }

    // The first cell of a tape that shows the head.
    fn head_cell(&self, tape: u32) -> Option<u32>
        requires first { 1 ≤ tape }
        requires last { tape ≤ 3 }
        ensures { let b = self.now.layout in result
            ≡ position (λ p. has_head (symbol_count_at b tape) (cell_state_at b self.now.config.states tape p))
            (range_with_len 0 (cells_in b.limits tape)) }
    {
        for cell in 0..self.layout().cells(tape) {
            if self.shows_head(tape, cell) {
                return Some(cell);
            }
        }
        None
    }

    // The symbol that a cell shows.
    fn symbol_at(&self, tape: u32, cell: u32) -> Option<u32>
        requires first { 1 ≤ tape }
        requires last { tape ≤ 3 }
        requires cell { cell < cells_in self.now.layout.limits tape }
        ensures { let b = self.now.layout in result
            ≡ option_map (symbol_by (symbol_count_at b tape)) (cell_state_at b self.now.config.states tape cell) }
    {
        let letters = self.layout().letters(tape);
        match self.cell_state(tape, cell) {
            Some(state) if state < letters => Some(state),
            Some(state) => Some(state - letters),
            None => None,
        }
    }

    // Whether a cell shows the head.
    fn shows_head(&self, tape: u32, cell: u32) -> bool
        requires first { 1 ≤ tape }
        requires last { tape ≤ 3 }
        requires cell { cell < cells_in self.now.layout.limits tape }
        ensures { let b = self.now.layout in result
            ≡ has_head (symbol_count_at b tape) (cell_state_at b self.now.config.states tape cell) }
    {
        match self.cell_state(tape, cell) {
            Some(state) => state >= self.layout().letters(tape),
            None => false,
        }
    }

    // The state of a cell: the first marked column of its bank.
    fn cell_state(&self, tape: u32, cell: u32) -> Option<u32>
        requires first { 1 ≤ tape }
        requires last { tape ≤ 3 }
        requires cell { cell < cells_in self.now.layout.limits tape }
        ensures { result ≡ cell_state_at self.now.layout self.now.config.states tape cell }
    {
        let layout = self.layout();
        let first = layout.cell_element(tape, cell);
        self.marked_column(first, 2 * layout.letters(tape), layout.cell_lines(tape))
    }

    // The first marked column of a bank that begins at this element, with this many columns and rows.
    #[tactic(auto, using(crate::proofs::CellLemmas::bottom_low))]
    fn marked_column(&self, first: u32, columns: u32, rows: u32) -> Option<u32>
        requires inside { column_at first rows columns ≤ elements_of self.now.layout }
        requires few { column_at first rows columns ≤ MOST_ELEMENTS }
        ensures { result ≡ marked_column self.now.config.states first columns rows }
    {
        for column in 0..columns {
            if self.is_marked(first + column * (rows + 1) + rows) {
                return Some(column);
            }
        }
        None
    }
}
