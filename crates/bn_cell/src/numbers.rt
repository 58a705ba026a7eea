//! The numbers of a cell's ports and states.
ghost use Rattle.std.specs.Prelude.{◌≡◌, ◌<◌};
ghost use Rattle.bn_network.specs.Cells.{line_number, cell_line, cell_line_count, IsLineOf, state_number};
ghost use Rattle.bn_cell.specs.Sizes.{IsCellSize, cell_state};

use bn_network::CellLine;

/// The number of a port, in or out, of a cell for this number of symbols; ports and symbols are counted from 0. It
/// takes no memory. (The order of the ports is own to this project.)
pub fn line_number(symbols: u32, line: CellLine) -> u32
    requires size { IsCellSize symbols }
    requires line { IsLineOf symbols line }
    ensures { result ≡ line_number symbols line }
{
    match line {
        CellLine::Read => 0,
        CellLine::Write(symbol) => 1 + symbol,
        CellLine::ShiftRight => symbols + 1,
        CellLine::ShiftLeft => symbols + 2,
        CellLine::TakeRight => symbols + 3,
        CellLine::Answer(symbol) => symbols + 4 + symbol,
        CellLine::DoneWrite => 2 * symbols + 4,
        CellLine::DoneRight => 2 * symbols + 5,
        CellLine::DoneLeft => 2 * symbols + 6,
        CellLine::TakeLeft => 2 * symbols + 7,
    }
}

/// The port with this number, counted from 0, of a cell for this number of symbols. It takes no memory.
pub fn line_of(symbols: u32, number: u32) -> CellLine
    requires size { IsCellSize symbols }
    requires number { number < cell_line_count symbols }
    ensures line { result ≡ cell_line symbols number }
    ensures valid { IsLineOf symbols result }
{
    if number == 0 {
        CellLine::Read
    } else if number < symbols + 1 {
        CellLine::Write(number - 1)
    } else if number == symbols + 1 {
        CellLine::ShiftRight
    } else if number == symbols + 2 {
        CellLine::ShiftLeft
    } else if number == symbols + 3 {
        CellLine::TakeRight
    } else if number < 2 * symbols + 4 {
        CellLine::Answer(number - (symbols + 4))
    } else if number == 2 * symbols + 4 {
        CellLine::DoneWrite
    } else if number == 2 * symbols + 5 {
        CellLine::DoneRight
    } else if number == 2 * symbols + 6 {
        CellLine::DoneLeft
    } else {
        CellLine::TakeLeft
    }
}

/// The number of the state, counted from 0, in which a cell for this number of symbols has this symbol, with the head
/// or without it. It takes no memory.
pub fn state_number(symbols: u32, head: bool, symbol: u32) -> u32
    requires size { IsCellSize symbols }
    requires symbol { symbol < symbols }
    ensures { result ≡ state_number symbols (cell_state head symbol) }
{
    if head { symbols + symbol } else { symbol }
}
