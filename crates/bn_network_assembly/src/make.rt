//! The assembly of networks.
ghost use Rattle.std.specs.Prelude.{◌≡◌, ℕ, ◌*◌, ◌^◌, ◌<◌, ◌≤◌, List, IfOk, IfErr, length};
ghost use Rattle.bn_quad.specs.Quadruples.{IsQuadMachine};
ghost use Rattle.bn_quad.specs.Calls.{IsUniformMachine};
ghost use Rattle.bn_network.specs.Controls.{ControlState, IsNumbering};
ghost use Rattle.bn_network.specs.Networks.{bank_size, cell_size, elements_by};
ghost use Rattle.bn_control.specs.Controlled.{IsControlOf, IsWithinLimits};
ghost use Rattle.bn_network.specs.Limits.{AreSmall};
ghost use Rattle.bn_network.specs.Starts.{AreInputs, words_on};
ghost use Rattle.bn_network_assembly.specs.Assembled.{IsAssembled, IsAssembledFrom, IsRefusal, IsSizeRefusal, IsWordOf};
ghost use Rattle.bn_network_assembly.specs.Assembled.{limits_of};

use crate::assembly::Assembly;
use crate::module::Module;
use crate::modules::{letters, network_modules};
use crate::refusal::AssembleRefusal;
use crate::start::start_states;
use crate::windows::Windows;
use crate::wires::network_wires;
use crate::words::TapeSymbols;
use bn_circuits::{Config, MOST_ELEMENTS, Net, Place, States};
use bn_control::{Control, control, state_count};
use bn_element::Element;
use bn_lists::NoMemory;
use bn_network::MOST_SYMBOLS;
use bn_quad::{QuadMachine, Uniform};
use std::alloc::Global;

/// The network of a uniform machine for these windows, at the start with this word on tape 1. `Err` is `WordOutside`
/// exactly if the word is longer than the right side of tape 1, `Elements` only if the flat circuit would have more
/// than `MOST_ELEMENTS` elements, or `NoMemory`. `Ok` only if the circuit has at most that many.
pub fn assemble(
    alloc: Global,
    machine: &Uniform,
    windows: &Windows,
    word: &[u32],
) -> Result<Assembly, AssembleRefusal>
    requires machine { IsWithinLimits machine.now }
    requires windows { AreSmall (limits_of windows.now) }
    requires few { length word.now < 2 ^ 32 }
    requires word { IsWordOf machine.now word.now }
    ensures made { IfOk result (λ a. (names : List ControlState)
        × IsAssembled machine.now (limits_of windows.now) word.now names a) }
    ensures refused { IfErr result (IsRefusal machine.now (limits_of windows.now) word.now) }
    ensures word { (limits_of windows.now).right < length word.now
        → result ≡ Err (AssembleRefusal.WordOutside (length word.now)) }
{
    if word.len() > windows.right1 as usize {
        return Err(AssembleRefusal::WordOutside {
            needs: word.len() as u32,
        });
    }
    let words = TapeSymbols {
        one: word,
        two: &[],
        three: &[],
    };
    assemble_words(alloc, machine, windows, &words)
}

/// The network of a uniform machine for these windows, at the start with words on the three tapes, which fit. `Err`
/// is `Elements` only if the flat circuit would have more than `MOST_ELEMENTS` elements, or `NoMemory`, and never
/// `WordOutside`. `Ok` only if the circuit has at most that many.
pub fn assemble_words(
    alloc: Global,
    machine: &Uniform,
    windows: &Windows,
    words: &TapeSymbols<'_>,
) -> Result<Assembly, AssembleRefusal>
    requires machine { IsWithinLimits machine.now }
    requires windows { AreSmall (limits_of windows.now) }
    requires words { AreInputs machine.now (limits_of windows.now)
        words.now.one.now words.now.two.now words.now.three.now }
    ensures made { IfOk result (λ a. (names : List ControlState)
        × IsAssembledFrom machine.now (limits_of windows.now)
        (words_on machine.now words.now.one.now words.now.two.now words.now.three.now) names a) }
    ensures refused { IfErr result (IsSizeRefusal machine.now (limits_of windows.now)) }
{
    let control = control(alloc, machine)?;
    let machine = machine.machine();
    let count = count_elements(machine, windows, control.rsm().states());
    if count > MOST_ELEMENTS {
        return Err(AssembleRefusal::Elements { count });
    }
    Ok(join(alloc, control, machine, windows, words)?)
}

/// The number of elements of the flat circuit of a uniform machine's network in these windows. It takes no memory.
pub fn element_count(machine: &Uniform, windows: &Windows) -> u64
    requires machine { IsWithinLimits machine.now }
    requires windows { AreSmall (limits_of windows.now) }
    ensures { (names : List ControlState) → IsNumbering machine.now names
        → result ≡ elements_by machine.now (limits_of windows.now) (length names) }
{
    let machine = machine.machine();
    count_elements(machine, windows, state_count(machine))
}

// The number of elements of the circuit if the control has this number of states.
pub(crate) fn count_elements(machine: &QuadMachine, windows: &Windows, states: u32) -> u64
    requires machine { IsWithinLimits machine.now }
    requires windows { AreSmall (limits_of windows.now) }
    ensures { result ≡ elements_by machine.now (limits_of windows.now) states }
{
    let (one, two, three) = (
        letters(machine, 1),
        letters(machine, 2),
        letters(machine, 3),
    );
    bank_size(states, 1 + (one + 3) + (two + 3) + (three + 3))
        + row_size(windows.cells(1), one)
        + row_size(windows.cells(2), two)
        + row_size(windows.cells(3), three)
}

// The network of a control and its cells, if the circuit is not too large.
fn join(
    alloc: Global,
    control: Control,
    machine: &QuadMachine,
    windows: &Windows,
    words: &TapeSymbols<'_>,
) -> Result<Assembly, NoMemory>
    requires machine { IsWithinLimits machine.now }
    requires valid { IsQuadMachine machine.now }
    requires uniform { IsUniformMachine machine.now }
    requires windows { AreSmall (limits_of windows.now) }
    requires words { AreInputs machine.now (limits_of windows.now)
        words.now.one.now words.now.two.now words.now.three.now }
    requires control { (names : List ControlState) × IsControlOf machine.now names control }
    requires few { elements_by machine.now (limits_of windows.now) control.machine.states ≤ MOST_ELEMENTS }
    ensures { IfOk result (λ a. (names : List ControlState)
        × IsAssembledFrom machine.now (limits_of windows.now)
        (words_on machine.now words.now.one.now words.now.two.now words.now.three.now) names a) }
{
    let wires = network_wires(alloc, machine, windows)?;
    let states = start_states(alloc, machine, windows, words)?;
    let modules = network_modules(alloc, control, machine, windows)?;
    let net = Net::new(alloc, modules, wires.as_slice())?;
    let config = Config {
        states: States::new(states),
        place: Place::Enter {
            element: 0,
            line: 0,
        },
        steps: 0,
    };
    Ok(Assembly::of(net, config, *windows))
}

// The number of elements of a bank with these numbers of states and ports.
fn bank_size(states: u32, lines: u32) -> u64
    requires { lines < 2 ^ 16 }
    ensures size { result ≡ bank_size states lines }
    ensures small { result < 2 ^ 50 }
{
    u64::from(states) * (u64::from(lines) + 1)
}

// The number of elements of a tape's cells, for this number of symbols.
fn row_size(cells: u32, symbols: u32) -> u64
    requires cells { cells < 2 ^ 22 }
    requires symbols { symbols ≤ MOST_SYMBOLS }
    ensures size { result ≡ cells * cell_size symbols }
    ensures small { result < 2 ^ 60 }
{
    u64::from(cells) * bank_size(2 * symbols, 2 * symbols + 8)
}
