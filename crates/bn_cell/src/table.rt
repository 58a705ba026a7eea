//! The tape cell as an element whose moves are computed.

use crate::numbers::{line_number, line_of, state_number};
use bn_element::Element;
use bn_network::CellLine;

/// The tape cell for 1 to 4,001 symbols, including the blank, which is number 0 (own to this project). It has two
/// states for each symbol: first the symbols without the head, then the symbols with it. Its 2 * `symbols` + 8 ports,
/// in and out, are those of `CellLine`. Its moves are computed; it takes no memory.
#[derive(Debug, Drop)]
pub struct CellTable {
    /// The number of symbols that the cell can store.
    pub symbols: u32,
    ghost size: { IsCellSize symbols } by { IsCellSize-prop symbols },
}

ghost use Rattle.std.specs.Prelude.{◌≡◌, ◌<◌, ◌*◌};
ghost use Rattle.bn_network.specs.Cells.{cell_go, cell_back, by_numbers, state_of, cell_line_count, IsLineOf};
ghost use Rattle.bn_cell.specs.Sizes.{IsCellSize, IsCellSize-prop, cell_state};

impl CellTable {
    // The symbol of a state, and whether the head is there.
    fn symbol_of(&self, state: u32) -> (bool, u32)
        requires { state < 2 * self.now.symbols }
        ensures state { cell_state result.0 result.1 ≡ state_of self.now.symbols state }
        ensures symbol { result.1 < self.now.symbols }
    {
        if state < self.symbols {
            (false, state)
        } else {
            (true, state - self.symbols)
        }
    }

    // The numbers of a state and a port.
    fn numbered(&self, head: bool, symbol: u32, line: CellLine) -> Option<(u32, u32)>
        requires symbol { symbol < self.now.symbols }
        requires line { IsLineOf self.now.symbols line }
        ensures { result ≡ by_numbers self.now.symbols (Some (cell_state head symbol, line)) }
    {
        Some((
            state_number(self.symbols, head, symbol),
            line_number(self.symbols, line),
        ))
    }
}

impl Element for CellTable {
    ghost use Rattle.bn_network.specs.Cells.{cell_table};
    ghost use Rattle.bn_cell.specs.Reversible.{cells-reversible};

    ghost table = { λ c. cell_table c.symbols };

    ghost reversible = { λ c. cells-reversible c.symbols };

    fn lines_in(&self) -> u32 {
        2 * self.symbols + 8
    }

    fn lines_out(&self) -> u32 {
        2 * self.symbols + 8
    }

    fn states(&self) -> u32 {
        2 * self.symbols
    }

    fn go(&self, state: u32, line: u32) -> Option<(u32, u32)> {
        let (head, symbol) = self.symbol_of(state);
        let (head, symbol, line) = match (head, line_of(self.symbols, line)) {
            (false, CellLine::TakeRight) => (true, symbol, CellLine::DoneRight),
            (false, CellLine::TakeLeft) => (true, symbol, CellLine::DoneLeft),
            (false, line) => (false, symbol, line),
            (true, CellLine::Read) => (true, 0, CellLine::Answer(symbol)),
            (true, CellLine::Write(written)) if symbol == 0 => (true, written, CellLine::DoneWrite),
            (true, CellLine::ShiftRight) => (false, symbol, CellLine::TakeRight),
            (true, CellLine::ShiftLeft) => (false, symbol, CellLine::TakeLeft),
            _ => return None,
        };
        self.numbered(head, symbol, line)
    }

    fn back(&self, state: u32, line: u32) -> Option<(u32, u32)> {
        let (head, symbol) = self.symbol_of(state);
        let (head, symbol, line) = match (head, line_of(self.symbols, line)) {
            (false, CellLine::TakeRight) => (true, symbol, CellLine::ShiftRight),
            (false, CellLine::TakeLeft) => (true, symbol, CellLine::ShiftLeft),
            (false, line) => (false, symbol, line),
            (true, CellLine::Answer(read)) if symbol == 0 => (true, read, CellLine::Read),
            (true, CellLine::DoneWrite) => (true, 0, CellLine::Write(symbol)),
            (true, CellLine::DoneRight) => (false, symbol, CellLine::TakeRight),
            (true, CellLine::DoneLeft) => (false, symbol, CellLine::TakeLeft),
            _ => return None,
        };
        self.numbered(head, symbol, line)
    }
}
