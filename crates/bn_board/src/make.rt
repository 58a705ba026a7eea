//! Building circuits.

ghost use Rattle.std.specs.Prelude.{◌≡◌, ◌≤◌, length, IfOk};
ghost use Rattle.bn_circuits.specs.Order.{AreInOrder};
ghost use Rattle.bn_circuits.specs.RotaryNets.{rotary_circuit};
ghost use Rattle.bn_boards.specs.Boards.{AreModules, IsBoard, IsBoardWire, size};
ghost use Rattle.bn_network_assembly.specs.Assembled.{network_of};
ghost use Rattle.bn_board.specs.BoardWires.{IsDrawn, module_circuit};
ghost use Rattle.bn_board.specs.Flattened.{IsBoardKept, IsFlattened};
ghost use Rattle.bn_board.specs.Starts.{start_by};

use crate::bars::start_bars;
use crate::board::Board;
use crate::numbers::layout_of;
use crate::wiring::{bases, board_draft};
use bn_circuits::{Config, Line, MOST_ELEMENTS, Net, Place, States};
use bn_element::WEST;
use bn_lists::NoMemory;
use bn_network_assembly::{Assembly, Module};
use bn_packed::{Draft, Packed};
use std::alloc::Global;

/// The circuit of a network: each module as its bank of columns of rotary elements, bank after bank in the order of
/// the modules, at the network's start. Elements are counted from 0. `Err`: out of memory.
pub fn flatten(alloc: Global, assembly: &Assembly) -> Result<Board, NoMemory>
    ensures made { IfOk result (IsFlattened assembly.now) }
    ensures kept { IfOk result IsBoardKept }
{
    let layout = layout_of(alloc, assembly)?;
    let packed = packed_of(alloc, assembly, layout.elements())?;
    let end = layout.end_line();
    Ok(Board::new(packed, START, end, layout))
}

// The port by which the signal enters at the start.
const START: Line = Line {
    element: 0,
    line: WEST,
};

// The net of the circuit, with the bars at the start.
fn packed_of(alloc: Global, assembly: &Assembly, count: u32) -> Result<Packed, NoMemory>
    requires { count ≡ size (network_of assembly.now).tables }
    ensures board { IfOk result (λ p. IsBoard (network_of assembly.now) (rotary_circuit p.net)) }
    ensures config { IfOk result (λ p. p.config ≡ start_by
        (network_of assembly.now).tables assembly.now.config.states) }
    ensures elements { IfOk result (λ p. length p.net.elements ≡ count) }
    ensures order { IfOk result (λ p. AreInOrder p.net.wires) }
{
    let draft = draft_of(alloc, count, assembly.net())?;
    let bars = start_bars(alloc, assembly.net(), assembly.config().states.as_slice())?;
    let config = Config {
        states: States::new(bars),
        place: Place::Enter {
            element: START.element,
            line: START.line,
        },
        steps: 0,
    };
    let packed = Packed::from_draft(alloc, draft, config)?;
    Ok(packed)
}

// A draft of this many elements with the wires of the circuit of this net of modules.
fn draft_of(alloc: Global, count: u32, net: &Net<Module>) -> Result<Draft, NoMemory>
    requires modules { AreModules (module_circuit net.now) }
    requires few { size (module_circuit net.now).tables ≤ MOST_ELEMENTS }
    requires count { count ≡ size (module_circuit net.now).tables }
    ensures { IfOk result (IsDrawn (IsBoardWire (module_circuit net.now)) (size (module_circuit net.now).tables)) }
{
    let bases = bases(alloc, net)?;
    let draft = board_draft(alloc, count, net, bases.as_slice())?;
    Ok(draft)
}
