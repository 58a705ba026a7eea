//! Nets: elements connected by wires, and the steps of their one signal.

ghost use Rattle.std.specs.Prelude.{◌≡◌, ◌↔◌, ◌+◌, ◌^◌, ◌<◌, ◌≤◌, List, [], length, map, Option, Some, None, IsTrue};
ghost use Rattle.std.specs.Prelude.{IfOk, IfSome, OnOk, IfErr, slice_get, if◌then◌else◌};
ghost use Rattle.std.specs.Bool.{OnTrue, OnFalse};
ghost use Rattle.bn_lists.specs.Runs.{Reaches};
ghost use Rattle.bn_element.specs.Tables.{Table};
ghost use Rattle.bn_circuits.specs.Circuits.{IsCircuit, IsConfig, IsPlace, IsInputOf, IsOutputOf, Goes, IsStuck};
ghost use Rattle.bn_circuits.specs.Circuits.{IsFirst};
ghost use Rattle.bn_circuits.specs.Circuits.{target, source, states_of, inputs_of, outputs_of, go_of, back_of};
ghost use Rattle.bn_circuits.specs.Circuits.{same_line};
ghost use Rattle.bn_circuits.specs.Circuits.{place_after};
ghost use Rattle.bn_circuits.specs.Stepping.{run, back, line_before};
ghost use Rattle.bn_circuits.specs.Parts.{circuit};
ghost use Rattle.bn_circuits.specs.Order.{AreInOrder};
ghost use Rattle.bn_circuits.specs.Faults.{fault_of, checked, AreFaultless, IsRefusal};
ghost use Rattle.bn_circuits.specs.Circuits.{AreStates};
ghost use Rattle.bn_circuits.specs.declared.line.Line.{Line};

use crate::refusal::NetRefusal;
use crate::row_map::RowMap;
use crate::{CLOCK, Config, Line, Place, Wire};
use bn_element::Element;
use bn_lists::NoMemory;
use std::alloc::{AllocError, Global};
use std::marker::Model;

/// The most elements of a circuit that is read, made or written as a text (this project's own profile).
pub const MOST_ELEMENTS: u64 = 4_194_304;

/// Elements with wires from output ports to input ports, one to one. Elements and their ports are counted from 0.
/// Contracts see the elements and the list of wires, in the order of their output ports. The wires are stored both
/// ways: a step forward and a step backward are look-ups.
#[derive(Debug, Drop)]
pub struct Net<E: Element> {
    elements: Vec<E>,
    targets: RowMap,
    sources: RowMap,
}

impl<E: Element> Model for Net<E> {
    ghost use Rattle.std.specs.Prelude.{map};
    ghost use Rattle.bn_circuits.specs.Parts.{Parts};
    ghost use Rattle.bn_circuits.specs.Rows.{wires_of, IsWired};

    ghost Value = { Parts E };

    ghost view = { λ n. record { elements = n.elements.items; wires = wires_of 0 n.targets } };

    ghost invariant = { λ n. IsWired (map E.table n.elements.items) n.targets n.sources };
}

impl<E: Element> Net<E> {
    /// The net of these elements and wires. The wires are tested in order, and the error names the first faulty one:
    /// `Range` if one of its numbers is out of range; otherwise `TwoTargets` if an earlier wire leaves the same output
    /// port; otherwise `TwoSources` if an earlier wire ends at the same input port. It is `NoMemory` if memory runs
    /// out.
    pub fn try_new(alloc: Global, elements: Vec<E>, wires: &[Wire]) -> Result<Net<E>, NetRefusal>
        requires few_elements { length elements.items < 2 ^ 32 }
        requires few_wires { length wires.now < 2 ^ 32 }
        ensures elements { IfOk result (λ net. net.elements ≡ elements.items) }
        ensures targets { IfOk result (λ net. (from : Line) → target net.wires from ≡ target wires.now from) }
        ensures sources { IfOk result (λ net. (to : Line) → source net.wires to ≡ source wires.now to) }
        ensures circuit { IfOk result (λ net. IsCircuit (circuit E.table net)) }
        ensures faultless { OnOk result (AreFaultless (map E.table elements.items) wires.now) }
        ensures refused { IfErr result (IsRefusal (map E.table elements.items) wires.now) }
    {
        let mut net = Net::unwired(alloc, elements)?;
        for index in 0..wires.len() {
            net.check(wires[index], index as u32 + 1)?;
            net.connect(wires[index]);
        }
        Ok(net)
    }

    /// The net of these elements and wires, none of which has a fault. No wire is tested again, and the call fails only
    /// if memory runs out.
    pub fn new(alloc: Global, elements: Vec<E>, wires: &[Wire]) -> Result<Net<E>, NoMemory>
        requires few_elements { length elements.items < 2 ^ 32 }
        requires faultless { AreFaultless (map E.table elements.items) wires.now }
        ensures elements { IfOk result (λ net. net.elements ≡ elements.items) }
        ensures targets { IfOk result (λ net. (from : Line) → target net.wires from ≡ target wires.now from) }
        ensures sources { IfOk result (λ net. (to : Line) → source net.wires to ≡ source wires.now to) }
        ensures circuit { IfOk result (λ net. IsCircuit (circuit E.table net)) }
    {
        let mut net = Net::unwired(alloc, elements)?;
        let count = wires.len();
        for index in 0..count {
            net.connect(wires[index]);
        }
        Ok(net)
    }

    /// The number of elements. The contract also states the invariant of every net.
    pub fn len(&self) -> u32
        ensures number { result ≡ length self.now.elements }
        ensures circuit { IsCircuit (circuit E.table self.now) }
        ensures order { AreInOrder self.now.wires }
    {
        self.elements.len() as u32
    }

    /// An element, counted from 0.
    pub fn element(&self, element: u32) -> &E
        requires { element < length self.now.elements }
        ensures { slice_get self.now.elements element ≡ Some result.now }
    {
        &self.elements[element as usize]
    }

    /// The input port to which the wire of this output port leads, or `None` exactly if no wire leaves this port. The
    /// contract also states the invariant of every net.
    pub fn target(&self, from: Line) -> Option<Line>
        requires { IsOutputOf (map E.table self.now.elements) from }
        ensures line { result ≡ target self.now.wires from }
        ensures circuit { IsCircuit (circuit E.table self.now) }
        ensures order { AreInOrder self.now.wires }
    {
        self.targets.get(from)
    }

    /// The output port from which the wire to this input port comes, or `None` exactly if no wire ends at this port.
    /// The contract also states the invariant of every net.
    pub fn source(&self, to: Line) -> Option<Line>
        requires { IsInputOf (map E.table self.now.elements) to }
        ensures line { result ≡ source self.now.wires to }
        ensures circuit { IsCircuit (circuit E.table self.now) }
        ensures order { AreInOrder self.now.wires }
    {
        self.sources.get(to)
    }

    /// Whether the configuration is one of this net: one state for each element, each in range; a place in range,
    /// with no wire at the port by which the signal has left, if it has; and at most `CLOCK` steps.
    pub fn accepts(&self, config: &Config) -> bool
        ensures { IsTrue result ↔ IsConfig (circuit E.table self.now) config.now }
    {
        config.steps <= CLOCK
            && self.accepts_states(config.states.as_slice())
            && self.accepts_place(config.place)
    }

    /// Makes one element step and returns `true`. Returns `false`, with nothing changed, exactly if no step can be
    /// made: the signal has left, or the element has no move, or the steps are `CLOCK`. A step back undoes the step.
    pub fn step(&self, config: &mut Config) -> bool
        requires { IsConfig (circuit E.table self.now) config.old }
        ensures made { OnTrue result (Goes (circuit E.table self.now) config.old config.new) }
        ensures kept { OnFalse result (config.new ≡ config.old) }
        ensures stuck { OnFalse result (IsStuck (circuit E.table self.now) config.old) }
        ensures undone { OnTrue result (back (circuit E.table self.now) config.new 1 ≡ config.old) }
        ensures good { IsConfig (circuit E.table self.now) config.new }
    {
        let Place::Enter { element, line } = config.place else {
            return false;
        };
        if config.steps >= CLOCK {
            return false;
        }
        let state = config.states.get(element as usize);
        let Some((after, output)) = self.go(element, state, line) else {
            return false;
        };
        config.states.set(element as usize, after);
        config.place = self.place_after(Line {
            element,
            line: output,
        });
        config.steps += 1;
        true
    }

    /// Undoes one element step and returns `true`. Returns `false`, with nothing changed, exactly if no step leads to
    /// the configuration: the steps are 0, or no wire ends at the input port, or no move of the element that the
    /// signal came from leads to this pair of state and port.
    pub fn back_step(&self, config: &mut Config) -> bool
        requires { IsConfig (circuit E.table self.now) config.old }
        ensures made { OnTrue result (Goes (circuit E.table self.now) config.new config.old) }
        ensures kept { OnFalse result (config.new ≡ config.old) }
        ensures first { OnFalse result (IsFirst (circuit E.table self.now) config.old) }
        ensures back { config.new ≡ back (circuit E.table self.now) config.old 1 }
        ensures good { IsConfig (circuit E.table self.now) config.new }
    {
        if config.steps == 0 {
            return false;
        }
        let Some(Line { element, line }) = self.line_before(config.place) else {
            return false;
        };
        let state = config.states.get(element as usize);
        let Some((before, input)) = self.back(element, state, line) else {
            return false;
        };
        config.states.set(element as usize, before);
        config.place = Place::Enter {
            element,
            line: input,
        };
        config.steps -= 1;
        true
    }

    /// Makes at most `e` element steps and returns how many: fewer than `e` only if no step can be made from the last
    /// configuration.
    pub fn run(&self, config: &mut Config, e: u64) -> u64
        requires { IsConfig (circuit E.table self.now) config.old }
        ensures bound { result ≤ e }
        ensures made { Reaches (Goes (circuit E.table self.now)) result config.old config.new }
        ensures ended { result < e → IsStuck (circuit E.table self.now) config.new }
        ensures run { config.new ≡ run (circuit E.table self.now) config.old e }
        ensures undone { back (circuit E.table self.now) config.new result ≡ config.old }
        ensures good { IsConfig (circuit E.table self.now) config.new }
    {
        for made in 0..e {
            if !self.step(config) {
                return made;
            }
        }
        e
    }

    /// Undoes at most `e` element steps and returns how many: fewer than `e` only if no step leads to the last
    /// configuration.
    pub fn run_back(&self, config: &mut Config, e: u64) -> u64
        requires { IsConfig (circuit E.table self.now) config.old }
        ensures bound { result ≤ e }
        ensures made { Reaches (Goes (circuit E.table self.now)) result config.new config.old }
        ensures ended { result < e → IsFirst (circuit E.table self.now) config.new }
        ensures back { config.new ≡ back (circuit E.table self.now) config.old e }
        ensures undone { run (circuit E.table self.now) config.new result ≡ config.old }
        ensures good { IsConfig (circuit E.table self.now) config.new }
    {
        for made in 0..e {
            if !self.back_step(config) {
                return made;
            }
        }
        e
    }

    // The net of these elements with no wire.
    fn unwired(alloc: Global, elements: Vec<E>) -> Result<Net<E>, NoMemory>
        requires { length elements.items < 2 ^ 32 }
        ensures elements { IfOk result (λ net. net.elements ≡ elements.items) }
        ensures wires { IfOk result (λ net. net.wires ≡ []) }
        ensures circuit { IfOk result (λ net. IsCircuit (circuit E.table net)) }
    {
        let outputs = output_counts(alloc, elements.as_slice())?;
        let targets = RowMap::try_new(alloc, outputs.as_slice())?;
        drop(outputs);
        let inputs = input_counts(alloc, elements.as_slice())?;
        let sources = RowMap::try_new(alloc, inputs.as_slice())?;
        Ok(Net {
            elements,
            targets,
            sources,
        })
    }

    // Tests a wire against the wires of the net: its first fault, with its number, counted from 1.
    fn check(&self, wire: Wire, number: u32) -> Result<(), NetRefusal>
        ensures { result ≡ checked (fault_of (map E.table self.now.elements) self.now.wires wire) number }
    {
        if !self.has_output(wire.from) || !self.has_input(wire.to) {
            return Err(NetRefusal::Range { i: number });
        }
        if self.target(wire.from).is_some() {
            return Err(NetRefusal::TwoTargets { i: number });
        }
        if self.source(wire.to).is_some() {
            return Err(NetRefusal::TwoSources { i: number });
        }
        Ok(())
    }

    // Adds a wire that has no fault.
    fn connect(&mut self, wire: Wire)
        requires { fault_of (map E.table self.old.elements) self.old.wires wire ≡ None }
        ensures elements { self.new.elements ≡ self.old.elements }
        ensures targets { (from : Line)
            → target self.new.wires from
            ≡ (if same_line wire.from from then Some wire.to else target self.old.wires from) }
        ensures sources { (to : Line)
            → source self.new.wires to
            ≡ (if same_line wire.to to then Some wire.from else source self.old.wires to) }
        ensures circuit { IsCircuit (circuit E.table self.new) }
    {
        self.targets.set(wire.from, wire.to);
        self.sources.set(wire.to, wire.from);
    }

    // Whether the input port exists.
    fn has_input(&self, line: Line) -> bool
        ensures { IsTrue result ↔ IsInputOf (map E.table self.now.elements) line }
    {
        (line.element as usize) < self.elements.len()
            && line.line < self.elements[line.element as usize].lines_in()
    }

    // Whether the output port exists.
    fn has_output(&self, line: Line) -> bool
        ensures { IsTrue result ↔ IsOutputOf (map E.table self.now.elements) line }
    {
        (line.element as usize) < self.elements.len()
            && line.line < self.elements[line.element as usize].lines_out()
    }

    // Whether there is one state for each element, each in range.
    fn accepts_states(&self, states: &[u32]) -> bool
        ensures { IsTrue result ↔ AreStates (map E.table self.now.elements) states.now }
    {
        if states.len() != self.elements.len() {
            return false;
        }
        for index in 0..states.len() {
            if states[index] >= self.elements[index].states() {
                return false;
            }
        }
        true
    }

    // Whether the place is one of this net.
    fn accepts_place(&self, place: Place) -> bool
        ensures { IsTrue result ↔ IsPlace (circuit E.table self.now) place }
    {
        match place {
            Place::Enter { element, line } => self.has_input(Line { element, line }),
            Place::Left { element, line } => {
                let from = Line { element, line };
                self.has_output(from) && self.target(from).is_none()
            }
        }
    }

    // The move of an element from a state and an input port.
    fn go(&self, element: u32, state: u32, line: u32) -> Option<(u32, u32)>
        requires state { state < states_of (map E.table self.now.elements) element }
        requires line { line < inputs_of (map E.table self.now.elements) element }
        ensures made { result ≡ go_of (map E.table self.now.elements) element state line }
        ensures circuit { IsCircuit (circuit E.table self.now) }
    {
        self.elements[element as usize].go(state, line)
    }

    // The move of an element to a state and an output port.
    fn back(&self, element: u32, state: u32, line: u32) -> Option<(u32, u32)>
        requires state { state < states_of (map E.table self.now.elements) element }
        requires line { line < outputs_of (map E.table self.now.elements) element }
        ensures made { result ≡ back_of (map E.table self.now.elements) element state line }
        ensures circuit { IsCircuit (circuit E.table self.now) }
    {
        self.elements[element as usize].back(state, line)
    }

    // Where the signal is after it has left an element by this output port.
    fn place_after(&self, from: Line) -> Place
        requires { IsOutputOf (map E.table self.now.elements) from }
        ensures { result ≡ place_after self.now.wires from }
    {
        match self.target(from) {
            None => Place::Left {
                element: from.element,
                line: from.line,
            },
            Some(to) => Place::Enter {
                element: to.element,
                line: to.line,
            },
        }
    }

    // The output port by which the signal reached this place.
    fn line_before(&self, place: Place) -> Option<Line>
        requires { IsPlace (circuit E.table self.now) place }
        ensures line { result ≡ line_before self.now.wires place }
        ensures output { IfSome result (IsOutputOf (map E.table self.now.elements)) }
        ensures circuit { result ≡ None → IsCircuit (circuit E.table self.now) }
    {
        match place {
            Place::Enter { element, line } => self.source(Line { element, line }),
            Place::Left { element, line } => Some(Line { element, line }),
        }
    }
}

// The number of output ports of each element.
fn output_counts<E: Element>(alloc: Global, elements: &[E]) -> Result<Vec<u32>, NoMemory>
    requires { length elements.now < 2 ^ 32 }
    ensures { IfOk result (λ v. v.items ≡ map (λ x. (E.table x).outputs) elements.now) }
{
    let counts: Result<Vec<u32>, AllocError> = elements
        .iter()
        .map(|element| element.lines_out())
        .collect(alloc);
    Ok(counts?)
}

// The number of input ports of each element.
fn input_counts<E: Element>(alloc: Global, elements: &[E]) -> Result<Vec<u32>, NoMemory>
    requires { length elements.now < 2 ^ 32 }
    ensures { IfOk result (λ v. v.items ≡ map (λ x. (E.table x).inputs) elements.now) }
{
    let counts: Result<Vec<u32>, AllocError> = elements
        .iter()
        .map(|element| element.lines_in())
        .collect(alloc);
    Ok(counts?)
}
