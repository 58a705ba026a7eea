//! The modules and wires of the lines read so far.

ghost use Rattle.std.specs.Prelude.{◌≡◌, ◌<◌, ◌≤◌, ◌+◌, ◌++◌, ℕ, None, length, IfOk, OnOk, IfErr, take, Some, true};
ghost use Rattle.std.specs.Prelude.{if◌then◌else◌};
ghost use Rattle.std.specs.HashMap.{get};
ghost use Rattle.bn_circuits.specs.declared.line.Wire.{Wire};
ghost use Rattle.bn_base.specs.declared.limits.TheConstants.{MOST_COUNT};
ghost use Rattle.bn_network_text.specs.Lines.{Page, header_lines};
ghost use Rattle.bn_network_text.specs.Faults.{entry_in, module_fault, head_fault, wire_fault, outputs_fault};
ghost use Rattle.bn_network_text.specs.Faults.{wires_from, is_count, kind_fault, ports_of, line_of};
ghost use Rattle.bn_network_text.specs.Networks.{module_of};
ghost use Rattle.bn_network_text.specs.Drafting.{IsDraft, IsFed, IsHeader, IsRefusalAt, output_fault, same_pair};
ghost use Rattle.bn_network_text.specs.Drafting.{wire_by};

use crate::entry::{Entry, Kind};
use crate::fault::{NetworkFault, NetworkRefusal};
use crate::header::Header;
use crate::module::Module;
use crate::page::Page;
use crate::ports::{existing, ports_of, shape_at};
use crate::shape::Shape;
use bn_circuits::{Line, Wire};
use bn_lists::NoMemory;
use std::alloc::Global;
use std::collections::HashMap;

// The modules and the wires, and the input ports to which these lead.
#[derive(Drop)]
pub(crate) struct Draft {
    pub(crate) modules: Vec<Module>,
    pub(crate) wires: Vec<Wire>,
    pub(crate) fed: HashMap<(u32, u32), bool>,
}

impl Draft {
    // No modules and no wires.
    pub(crate) fn new(alloc: Global) -> Draft
        ensures { (page : Page) → IsDraft page 0 result.modules.items result.wires.items result.fed }
    {
        Draft {
            modules: Vec::new(alloc),
            wires: Vec::new(alloc),
            fed: HashMap::new(alloc),
        }
    }

    // Takes the line of the module with this number, the next one.
    pub(crate) fn take(
        &mut self,
        shapes: &[Shape],
        page: &Page,
        header: &Header,
        number: u32,
    ) -> Result<(), NetworkRefusal>
        requires header { IsHeader page.now header.now.count header.now.start header.now.end }
        requires draft { IsDraft page.now number self.old.modules.items self.old.wires.items self.old.fed }
        ensures draft { OnOk result
            (IsDraft page.now (number + 1) self.new.modules.items self.new.wires.items self.new.fed) }
        ensures faultless { OnOk result (module_fault shapes.now page.now.says number ≡ None) }
        ensures refused { IfErr result
            (IsRefusalAt (module_fault shapes.now page.now.says number) (number + header_lines + 1)) }
    {
        let line = u64::from(number) + 6;
        let Some(entry) = page.entry(number) else {
            return Err(NetworkRefusal::Line {
                line,
                fault: NetworkFault::Syntax,
            });
        };
        match checked(shapes, number, entry) {
            Ok(module) => self.add(shapes, page, header, number, entry, module),
            Err(fault) => Err(NetworkRefusal::Line { line, fault }),
        }
    }

    // Adds the module of this line, with its wires.
    fn add(
        &mut self,
        shapes: &[Shape],
        page: &Page,
        header: &Header,
        number: u32,
        entry: &Entry,
        made: Module,
    ) -> Result<(), NetworkRefusal>
        requires header { IsHeader page.now header.now.count header.now.start header.now.end }
        requires draft { IsDraft page.now number self.old.modules.items self.old.wires.items self.old.fed }
        requires entry { entry_in page.now.says number ≡ Some entry.now }
        requires made { made ≡ module_of entry.now.kind }
        requires head { head_fault shapes.now number entry.now ≡ None }
        ensures draft { OnOk result
            (IsDraft page.now (number + 1) self.new.modules.items self.new.wires.items self.new.fed) }
        ensures faultless { OnOk result (module_fault shapes.now page.now.says number ≡ None) }
        ensures refused { IfErr result
            (IsRefusalAt (module_fault shapes.now page.now.says number) (number + header_lines + 1)) }
    {
        self.connect_all(shapes, page, header, number, entry.targets())?;
        let Ok(()) = self.modules.push(made) else {
            return Err(NetworkRefusal::NoMemory);
        };
        Ok(())
    }

    // Adds the wires that leave a module.
    fn connect_all(
        &mut self,
        shapes: &[Shape],
        page: &Page,
        header: &Header,
        number: u32,
        targets: &[Option<(u64, u64)>],
    ) -> Result<(), NetworkRefusal>
        requires header { IsHeader page.now header.now.count header.now.start header.now.end }
        requires fed { IsFed self.old.wires.items self.old.fed }
        requires few { length targets.now ≤ MOST_COUNT }
        ensures modules { self.new.modules ≡ self.old.modules }
        ensures wires { OnOk result
            (self.new.wires.items ≡ self.old.wires.items ++ wires_from number 0 targets.now) }
        ensures fed { OnOk result (IsFed self.new.wires.items self.new.fed) }
        ensures faultless { OnOk result
            (outputs_fault shapes.now page.now.says self.old.wires.items number 0 targets.now ≡ None) }
        ensures refused { IfErr result
            (IsRefusalAt (outputs_fault shapes.now page.now.says self.old.wires.items number 0 targets.now)
            (number + header_lines + 1)) }
    {
        for index in 0..targets.len() {
            let from = Line {
                element: number,
                line: index as u32,
            };
            self.connect(shapes, page, header, from, targets[index])?;
        }
        Ok(())
    }

    // Adds the wire that leaves an output port, if there is one.
    fn connect(
        &mut self,
        shapes: &[Shape],
        page: &Page,
        header: &Header,
        from: Line,
        target: Option<(u64, u64)>,
    ) -> Result<(), NetworkRefusal>
        requires header { IsHeader page.now header.now.count header.now.start header.now.end }
        requires fed { IsFed self.old.wires.items self.old.fed }
        ensures modules { self.new.modules ≡ self.old.modules }
        ensures wires { OnOk result
            (self.new.wires.items ≡ self.old.wires.items ++ wire_by from target) }
        ensures fed { OnOk result (IsFed self.new.wires.items self.new.fed) }
        ensures faultless { OnOk result
            (output_fault shapes.now page.now.says self.old.wires.items from target ≡ None) }
        ensures refused { IfErr result
            (IsRefusalAt (output_fault shapes.now page.now.says self.old.wires.items from target)
            (from.element + header_lines + 1)) }
    {
        let Some(port) = target else {
            return Ok(());
        };
        match self.joint(shapes, page, header, from, port) {
            Ok(to) => {
                let Ok(()) = self.wires.push(Wire { from, to }) else {
                    return Err(NetworkRefusal::NoMemory);
                };
                feed(&mut self.fed, (to.element, to.line))?;
                Ok(())
            }
            Err(fault) => Err(NetworkRefusal::Line {
                line: u64::from(from.element) + 6,
                fault,
            }),
        }
    }

    // The input port at the end of the wire from an output port to a port, if the wire has no fault.
    fn joint(
        &self,
        shapes: &[Shape],
        page: &Page,
        header: &Header,
        from: Line,
        port: (u64, u64),
    ) -> Result<Line, NetworkFault>
        requires header { IsHeader page.now header.now.count header.now.start header.now.end }
        requires fed { IsFed self.now.wires.items self.now.fed }
        ensures port { IfOk result (λ to. to ≡ line_of port) }
        ensures faultless { OnOk result
            (wire_fault shapes.now page.now.says self.now.wires.items from port ≡ None) }
        ensures refused { IfErr result (λ fault.
            wire_fault shapes.now page.now.says self.now.wires.items from port ≡ Some fault) }
    {
        let Some(to) = existing(shapes, page, header.count, port) else {
            return Err(NetworkFault::Target);
        };
        if header.end == from {
            return Err(NetworkFault::EndWired);
        }
        if header.start == to {
            return Err(NetworkFault::StartFed);
        }
        if self.fed.get(&(to.element, to.line)).is_some() {
            return Err(NetworkFault::TwoSources);
        }
        Ok(to)
    }
}

// Adds a port to those to which wires lead.
fn feed(fed: &mut HashMap<(u32, u32), bool>, port: (u32, u32)) -> Result<(), NoMemory>
    ensures { OnOk result ((p : ℕ × ℕ)
        → get same_pair fed.new p ≡ (if same_pair port p then Some true else get same_pair fed.old p)) }
{
    fed.insert(port, true)?;
    Ok(())
}

// The module of a line, if the line has no fault apart from its wires.
fn checked(shapes: &[Shape], number: u32, entry: &Entry) -> Result<Module, NetworkFault>
    ensures made { IfOk result (λ m. m ≡ module_of entry.now.kind) }
    ensures faultless { OnOk result (head_fault shapes.now number entry.now ≡ None) }
    ensures refused { IfErr result (λ fault. head_fault shapes.now number entry.now ≡ Some fault) }
{
    if !is_count(entry.targets().len(), ports_of(shapes, entry.kind)) {
        return Err(NetworkFault::Syntax);
    }
    if entry.number != u64::from(number) {
        return Err(NetworkFault::Order);
    }
    module_of(shapes, entry.kind)
}

// Whether the number is this one, if there is one.
fn is_count(count: usize, ports: Option<u32>) -> bool
    ensures { result ≡ is_count count ports }
{
    match ports {
        Some(ports) => count == ports as usize,
        None => true,
    }
}

// The module, if its table has its state.
fn module_of(shapes: &[Shape], kind: Kind) -> Result<Module, NetworkFault>
    ensures made { IfOk result (λ m. m ≡ module_of kind) }
    ensures faultless { OnOk result (kind_fault shapes.now kind ≡ None) }
    ensures refused { IfErr result (λ fault. kind_fault shapes.now kind ≡ Some fault) }
{
    match kind {
        Kind::Machine { table, state } => {
            let Some(shape) = shape_at(shapes, table) else {
                return Err(NetworkFault::Table);
            };
            if state == 0 || state > u64::from(shape.states) {
                return Err(NetworkFault::State);
            }
            Ok(Module::Machine {
                table: table.saturating_sub(1) as usize,
                state: (state - 1) as u32,
            })
        }
        Kind::Rotary { bar } => Ok(Module::Rotary { bar }),
    }
}
