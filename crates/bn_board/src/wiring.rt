//! The wires of a circuit.

ghost use Rattle.std.specs.Prelude.{◌≡◌, ◌+◌, ◌<◌, ◌≤◌, length, Some, IfOk, OnOk};
ghost use Rattle.bn_circuits.specs.Circuits.{IsOutputOf, target};
ghost use Rattle.bn_realise.specs.Banks.{bank_output_line, bank_input_line};
ghost use Rattle.bn_boards.specs.Boards.{AreModules, IsBoardWire, size, size_of};
ghost use Rattle.bn_network_assembly.specs.Modules.{module_table};
ghost use Rattle.bn_board.specs.BoardWires.{AreBases, IsDrawn, IsOwnWire, IsBetween, IsWireBefore, module_circuit};

use bn_circuits::{Line, MOST_ELEMENTS, Net, Wire};
use bn_element::{EAST, Element, WEST};
use bn_lists::NoMemory;
use bn_network_assembly::Module;
use bn_packed::Draft;
use bn_realise::bank_wires;
use std::alloc::Global;

// The first element of each module's bank.
#[tactic(auto, using(crate::proofs::WireLemmas::bases_of_modules))]
pub(crate) fn bases(alloc: Global, net: &Net<Module>) -> Result<Vec<u32>, NoMemory>
    requires modules { AreModules (module_circuit net.now) }
    requires few { size (module_circuit net.now).tables ≤ MOST_ELEMENTS }
    ensures { IfOk result (λ v. AreBases (module_circuit net.now).tables v.items) }
{
    let mut bases = Vec::new(alloc);
    let mut next = 0;
    for number in 0..net.len() {
        bases.push(next)?;
        next += size_of(net.element(number));
    }
    Ok(bases)
}

// The number of elements of a module's bank.
pub(crate) fn size_of(bank: &Module) -> u32
    requires some { 0 < (module_table bank.now).states }
    requires few { size_of (module_table bank.now) ≤ MOST_ELEMENTS }
    ensures { result ≡ size_of (module_table bank.now) }
{
    bank.states() * (bank.lines_in() + 1)
}

// A draft of this many elements with the wires of the circuit of this net of modules, whose banks begin at these
// elements.
pub(crate) fn board_draft(
    alloc: Global,
    count: u32,
    net: &Net<Module>,
    bases: &[u32],
) -> Result<Draft, NoMemory>
    requires modules { AreModules (module_circuit net.now) }
    requires few { size (module_circuit net.now).tables ≤ MOST_ELEMENTS }
    requires bases { AreBases (module_circuit net.now).tables bases.now }
    requires count { count ≡ size (module_circuit net.now).tables }
    ensures { IfOk result (IsDrawn (IsBoardWire (module_circuit net.now)) (size (module_circuit net.now).tables)) }
{
    let mut draft = own_wires(alloc, count, net, bases)?;
    for number in 0..net.len() {
        draw_leaving(&mut draft, net, bases, number);
    }
    Ok(draft)
}

// A draft of this many elements with the own wires of all banks.
fn own_wires(alloc: Global, count: u32, net: &Net<Module>, bases: &[u32]) -> Result<Draft, NoMemory>
    requires modules { AreModules (module_circuit net.now) }
    requires few { size (module_circuit net.now).tables ≤ MOST_ELEMENTS }
    requires bases { AreBases (module_circuit net.now).tables bases.now }
    requires count { count ≡ size (module_circuit net.now).tables }
    ensures { IfOk result (IsDrawn (IsOwnWire (module_circuit net.now) (length net.now.elements))
        (size (module_circuit net.now).tables)) }
{
    let mut draft = Draft::new(alloc, count)?;
    for number in 0..net.len() {
        draw_bank(alloc, &mut draft, net, bases, number)?;
    }
    Ok(draft)
}

// Draws the own wires of a module's bank, after those of the earlier banks.
fn draw_bank(
    alloc: Global,
    draft: &mut Draft,
    net: &Net<Module>,
    bases: &[u32],
    number: u32,
) -> Result<(), NoMemory>
    requires modules { AreModules (module_circuit net.now) }
    requires few { size (module_circuit net.now).tables ≤ MOST_ELEMENTS }
    requires bases { AreBases (module_circuit net.now).tables bases.now }
    requires within { number < length net.now.elements }
    requires earlier { IsDrawn (IsOwnWire (module_circuit net.now) number) (size (module_circuit net.now).tables)
        draft.old }
    ensures { OnOk result (IsDrawn (IsOwnWire (module_circuit net.now) (number + 1))
        (size (module_circuit net.now).tables) draft.new) }
{
    let own = bank_wires(alloc, net.element(number), bases[number as usize])?;
    draft.add(own.as_slice());
    Ok(())
}

// Draws the wires from a module to others, after those from earlier modules.
fn draw_leaving(draft: &mut Draft, net: &Net<Module>, bases: &[u32], number: u32)
    requires modules { AreModules (module_circuit net.now) }
    requires few { size (module_circuit net.now).tables ≤ MOST_ELEMENTS }
    requires bases { AreBases (module_circuit net.now).tables bases.now }
    requires within { number < length net.now.elements }
    requires earlier { IsDrawn (IsWireBefore (module_circuit net.now) number 0) (size (module_circuit net.now).tables)
        draft.old }
    ensures { IsDrawn (IsWireBefore (module_circuit net.now) (number + 1) 0) (size (module_circuit net.now).tables)
        draft.new }
{
    for line in 0..net.element(number).lines_out() {
        draw_between(draft, net, bases, number, line);
    }
}

// Draws the wire from a module's output port to another module, if there is one.
fn draw_between(draft: &mut Draft, net: &Net<Module>, bases: &[u32], number: u32, line: u32)
    requires modules { AreModules (module_circuit net.now) }
    requires few { size (module_circuit net.now).tables ≤ MOST_ELEMENTS }
    requires bases { AreBases (module_circuit net.now).tables bases.now }
    requires within { number < length net.now.elements }
    requires line { IsOutputOf (module_circuit net.now).tables (record { element = number; line = line }) }
    requires earlier { IsDrawn (IsWireBefore (module_circuit net.now) number line)
        (size (module_circuit net.now).tables) draft.old }
    ensures { IsDrawn (IsWireBefore (module_circuit net.now) number (line + 1)) (size (module_circuit net.now).tables)
        draft.new }
{
    let out = Line {
        element: number,
        line,
    };
    if let Some(into) = net.target(out) {
        draft.add(&[between(net, bases, number, line, into)]);
    }
}

// The wire from a module's output port to this input port of another.
fn between(net: &Net<Module>, bases: &[u32], number: u32, line: u32, to: Line) -> Wire
    requires modules { AreModules (module_circuit net.now) }
    requires few { size (module_circuit net.now).tables ≤ MOST_ELEMENTS }
    requires bases { AreBases (module_circuit net.now).tables bases.now }
    requires within { number < length net.now.elements }
    requires leads { target net.now.wires (record { element = number; line = line }) ≡ Some to }
    requires line { IsOutputOf (module_circuit net.now).tables (record { element = number; line = line }) }
    ensures { IsBetween (module_circuit net.now) number line to result }
{
    Wire {
        from: output_line(net.element(number), bases[number as usize], line),
        to: input_line(bases[to.element as usize], to.line),
    }
}

// The output port of a module's bank that begins at this element.
fn output_line(bank: &Module, first: u32, line: u32) -> Line
    requires some { 0 < (module_table bank.now).states }
    requires line { line < (module_table bank.now).inputs }
    requires fits { first + size_of (module_table bank.now) ≤ MOST_ELEMENTS }
    ensures { result ≡ bank_output_line first (module_table bank.now) line }
{
    let last = (bank.states() - 1) * (bank.lines_in() + 1);
    Line {
        element: first + last + line,
        line: EAST,
    }
}

// The input port of a bank that begins at this element.
fn input_line(first: u32, line: u32) -> Line
    requires { first + line ≤ MOST_ELEMENTS }
    ensures { result ≡ bank_input_line first line }
{
    Line {
        element: first + line,
        line: WEST,
    }
}
