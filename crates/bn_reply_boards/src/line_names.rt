//! The names of the ports of cells and of the control.

ghost use Rattle.std.specs.Prelude.{◌≡◌, ◌<◌, ◌++◌, OnOk, OnErr};
ghost use Rattle.bn_bennett_laws.specs.List.{symbols_of};
ghost use Rattle.bn_reply.specs.Fronts.{GrewInPart};
ghost use Rattle.bn_reply_boards.specs.LineNames.{AreFew, answer_line, answer_text, cell_line_text, control_line_text};
ghost use Rattle.bn_reply_boards.specs.LineNames.{counts_in};

use bn_base::push_u64;
use bn_lists::NoMemory;
use bn_network::CellLine;
use bn_reply::push;
use bn_table::Table;

/// Appends the name of a cell's port. After `NoMemory` a prefix of the name may follow the text.
pub fn push_cell_line(text: &mut Vec<u8>, line: CellLine) -> Result<(), NoMemory>
    ensures added { OnOk result (text.new.items ≡ text.old.items ++ cell_line_text line) }
    ensures refused { OnErr result (GrewInPart text.old.items text.new.items (cell_line_text line)) }
{
    match line {
        CellLine::Read => push(text, b"Rd"),
        CellLine::Write(symbol) => {
            push(text, b"W ")?;
            push_u64(text, u64::from(symbol))
        }
        CellLine::ShiftRight => push(text, b"SR"),
        CellLine::ShiftLeft => push(text, b"SL"),
        CellLine::TakeRight => push(text, b"TakeR"),
        CellLine::Answer(symbol) => {
            push(text, b"A ")?;
            push_u64(text, u64::from(symbol))
        }
        CellLine::DoneWrite => push(text, b"DoneW"),
        CellLine::DoneRight => push(text, b"DoneR"),
        CellLine::DoneLeft => push(text, b"DoneL"),
        CellLine::TakeLeft => push(text, b"TakeL"),
    }
}

/// How many symbols each of the three tapes has, the blank among them.
#[derive(Clone, Copy, Debug)]
pub struct SymbolCounts {
    /// Those of tape 1.
    pub one: u32,
    /// Those of tape 2.
    pub two: u32,
    /// Those of tape 3.
    pub three: u32,
}

/// How many symbols the tapes of a table's reversible machine have.
pub fn counts_of_table(table: &Table) -> SymbolCounts
    ensures counts { counts_in result ≡ symbols_of table.now.machine }
    ensures few { AreFew result }
{
    // The table's own facts: its machine is within the limits of tables.
    let letters = table.machine().symbols();
    SymbolCounts {
        one: letters,
        two: table.machine().quints().len() as u32 + 1,
        three: letters,
    }
}

/// Appends the name of an input port of the control, counted from 0, of a machine whose tapes have this many symbols.
/// After `NoMemory` a prefix of the name may follow the text.
pub fn push_control_line(
    text: &mut Vec<u8>,
    counts: SymbolCounts,
    line: u32,
) -> Result<(), NoMemory>
    requires { AreFew counts }
    ensures added { OnOk result (text.new.items ≡ text.old.items ++ control_line_text (counts_in counts) line) }
    ensures refused { OnErr result (GrewInPart text.old.items text.new.items
        (control_line_text (counts_in counts) line)) }
{
    let SymbolCounts { one, two, three } = counts;
    if line == 0 {
        push(text, b"Start")
    } else if line < one + 4 {
        push_answer(text, one, line - 1, 1)
    } else if line < one + two + 7 {
        push_answer(text, two, line - (one + 4), 2)
    } else {
        push_answer(text, three, line - (one + two + 7), 3)
    }
}

// Appends the name of the port by which a tape with this many symbols returns its answer at this place.
fn push_answer(text: &mut Vec<u8>, symbols: u32, place: u32, tape: u32) -> Result<(), NoMemory>
    requires { symbols < 4294967295 }
    ensures added { OnOk result (text.new.items ≡ text.old.items ++ answer_text (answer_line symbols place) tape) }
    ensures refused { OnErr result (GrewInPart text.old.items text.new.items
        (answer_text (answer_line symbols place) tape)) }
{
    push_cell_line(text, answer_line(symbols, place))?;
    push(text, b" ")?;
    push_u64(text, u64::from(tape))
}

// The answer at this place among those of a tape with this many symbols.
fn answer_line(symbols: u32, place: u32) -> CellLine
    requires { symbols < 4294967295 }
    ensures { result ≡ answer_line symbols place }
{
    if place < symbols {
        CellLine::Answer(place)
    } else if place == symbols {
        CellLine::DoneWrite
    } else if place == symbols + 1 {
        CellLine::DoneRight
    } else {
        CellLine::DoneLeft
    }
}
