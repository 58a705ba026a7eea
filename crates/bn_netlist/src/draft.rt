//! The wires of a configuration text that have been read so far.

ghost use Rattle.std.specs.Prelude.{◌≡◌, ◌+◌, ◌*◌, ◌<◌, ◌≤◌, ◌++◌, ℕ, List, [], length, IfOk, OnOk, IfErr, Some};
ghost use Rattle.std.specs.Prelude.{is_some, slice_get, MatchOption, None};
ghost use Rattle.bn_circuits.specs.declared.net.TheConstants.{MOST_ELEMENTS};
ghost use Rattle.bn_circuits.specs.Wirings.{AreFitting};
ghost use Rattle.bn_base.specs.Number.{greatest};
ghost use Rattle.bn_circuits.specs.Circuits.{source};
ghost use Rattle.bn_circuits.specs.declared.line.Wire.{Wire};
ghost use Rattle.bn_packed.specs.Ends.{IsLineBelow};
ghost use Rattle.bn_netlist_laws.specs.Sentences.{AreNameable};
ghost use Rattle.bn_netlist_laws.specs.Reading.{named, named_targets};
ghost use Rattle.bn_netlist_laws.specs.Faults.{is_left_by};
ghost use Rattle.bn_netlist_laws.specs.Faults.{some_wire, wire_fault, outputs_fault};
ghost use Rattle.bn_netlist_laws.specs.Spelling.{header_then};
ghost use Rattle.bn_netlist.specs.Drafting.{RefusesBy, column_fault, IsInnerOf, ConnectsColumn, tested, Connects};
ghost use Rattle.bn_netlist.specs.Drafting.{AreKept, ConnectsAll, HasDrawn, IsFed, IsSized};

use crate::inner::{end_at, inner_wires, leave, leave_behind};
use crate::line_refusal::NetlistRefusal;
use bn_circuits::{Line, Place, Wire};
use bn_netlist_laws::Header;
use std::alloc::Global;

/// The wires read so far, without a list of them.
#[derive(Drop)]
pub struct Draft {
    /// Where ports lead, in packed form.
    pub(crate) drawn: bn_packed::Draft,
    // For each input port of the circuit, four per element, whether a wire ends there.
    pub(crate) fed: Vec<bool>,
}

impl Draft {
    /// A draft without wires, with memory for this many elements.
    pub fn new(alloc: Global, count: u32) -> Result<Draft, NetlistRefusal>
        requires { count ≤ MOST_ELEMENTS }
        ensures drawn { IfOk result (λ d. HasDrawn count [] d.drawn) }
        ensures fed { IfOk result (λ d. IsFed count [] d.fed.items) }
        ensures refused { IfErr result (λ r. r ≡ NetlistRefusal.NoMemory) }
    {
        let Ok(drawn) = bn_packed::Draft::new(alloc, count) else {
            return Err(NetlistRefusal::NoMemory);
        };
        let Ok(fed) = vec![in alloc; false; 4 * count as usize] else {
            return Err(NetlistRefusal::NoMemory);
        };
        Ok(Draft { drawn, fed })
    }

    /// Adds the wires of a column.
    pub fn connect_column(
        &mut self,
        alloc: Global,
        header: &Header,
        first: u32,
        rows: u64,
    ) -> Result<(), NetlistRefusal>
        requires sized { IsSized header.now.count self.old.drawn self.old.fed.items }
        requires some { 0 < rows }
        requires few { header.now.count ≤ MOST_ELEMENTS }
        requires read { rows ≤ greatest }
        ensures added { OnOk result ((ws : List Wire)
            → AreKept header.now.count ws self.old.drawn self.old.fed.items
            → ConnectsColumn header.now first rows ws self.new.drawn self.new.fed.items) }
        ensures within { OnOk result (first + rows < header.now.count) }
        ensures refused { IfErr result (λ r. (ws : List Wire)
            → AreKept header.now.count ws self.old.drawn self.old.fed.items
            → RefusesBy (column_fault header.now ws first rows) (first + 7) r) }
    {
        let inner = self.check_column(alloc, header, first, rows)?;
        self.drawn.add(inner.as_slice());
        self.mark(header.count, inner.as_slice());
        Ok(())
    }

    // Marks the input ports where these wires end.
    fn mark(&mut self, count: u32, wires: &[Wire])
        requires marks { length self.old.fed.items ≡ 4 * count }
        requires fitting { AreFitting count wires.now }
        ensures drawn { self.new.drawn ≡ self.old.drawn }
        ensures marked { (ws : List Wire) → IsFed count ws self.old.fed.items
            → IsFed count (ws ++ wires.now) self.new.fed.items }
    {
        for index in 0..wires.len() {
            let to = wires[index].to;
            self.fed[4 * to.element as usize + to.line as usize] = true;
        }
    }

    /// Adds the wires of some outputs of an element, from this output on; `targets` are the input ports to which they
    /// lead, and `line` is the number of the text line.
    pub fn connect_all(
        &mut self,
        header: &Header,
        element: u32,
        output: u32,
        targets: &[Option<(u64, u32)>],
        line: u64,
    ) -> Result<(), NetlistRefusal>
        requires sized { IsSized header.now.count self.old.drawn self.old.fed.items }
        requires there { element < header.now.count }
        requires nameable { AreNameable (named_targets targets.now) }
        requires four { output + length targets.now ≤ 4 }
        ensures added { OnOk result ((ws : List Wire)
            → AreKept header.now.count ws self.old.drawn self.old.fed.items
            → ConnectsAll header.now element output (named_targets targets.now) ws self.new.drawn
            self.new.fed.items) }
        ensures refused { IfErr result (λ r. (ws : List Wire)
            → AreKept header.now.count ws self.old.drawn self.old.fed.items
            → RefusesBy (outputs_fault (header_then header.now []) ws element output (named_targets targets.now))
            line r) }
    {
        for index in 0..targets.len() {
            let Some(to) = targets[index] else {
                continue;
            };
            let from = Line {
                element,
                line: output + index as u32,
            };
            self.connect(header, from, to, line)?;
        }
        Ok(())
    }

    // Adds a wire.
    #[inline]
    fn connect(
        &mut self,
        header: &Header,
        from: Line,
        to: (u64, u32),
        line: u64,
    ) -> Result<(), NetlistRefusal>
        requires sized { IsSized header.now.count self.old.drawn self.old.fed.items }
        requires there { IsLineBelow header.now.count from }
        requires low { to.1 < 4 }
        ensures added { OnOk result ((ws : List Wire)
            → AreKept header.now.count ws self.old.drawn self.old.fed.items
            → Connects header.now from (named to) ws self.new.drawn self.new.fed.items) }
        ensures sized { OnOk result (IsSized header.now.count self.new.drawn self.new.fed.items) }
        ensures refused { IfErr result (λ r. (ws : List Wire)
            → AreKept header.now.count ws self.old.drawn self.old.fed.items
            → RefusesBy (wire_fault (header_then header.now []) ws from (named to)) line r) }
    {
        let to = self.check(header, from, to, line)?;
        self.drawn.add(&[Wire { from, to }]);
        self.fed[4 * to.element as usize + to.line as usize] = true;
        Ok(())
    }

    // The input port to which a wire leads, if the wire has no fault; otherwise its first fault.
    #[inline]
    fn check(
        &self,
        header: &Header,
        from: Line,
        to: (u64, u32),
        line: u64,
    ) -> Result<Line, NetlistRefusal>
        requires marks { length self.now.fed.items ≡ 4 * header.now.count }
        requires low { to.1 < 4 }
        ensures tested { (ws : List Wire) → IsFed header.now.count ws self.now.fed.items
            → result ≡ tested (wire_fault (header_then header.now []) ws from (named to)) line (named to) }
        ensures there { IfOk result (λ l. IsLineBelow header.now.count l) }
    {
        let Some(to) = existing(to, header.count) else {
            return Err(NetlistRefusal::Target { line });
        };
        if header.end == from {
            return Err(NetlistRefusal::EndWired { line });
        }
        if has_left_by(header.place, from) {
            return Err(NetlistRefusal::LeftWired { line });
        }
        if header.start == to {
            return Err(NetlistRefusal::StartFed { line });
        }
        if self.is_fed(to) {
            return Err(NetlistRefusal::TwoSources { line });
        }
        Ok(to)
    }

    // The wires of a column, if it has no fault; otherwise its first fault.
    fn check_column(
        &self,
        alloc: Global,
        header: &Header,
        first: u32,
        rows: u64,
    ) -> Result<Vec<Wire>, NetlistRefusal>
        requires marks { length self.now.fed.items ≡ 4 * header.now.count }
        requires some { 0 < rows }
        requires few { header.now.count ≤ MOST_ELEMENTS }
        requires read { rows ≤ greatest }
        ensures inner { IfOk result (λ v. IsInnerOf header.now first rows v.items) }
        ensures faultless { OnOk result ((ws : List Wire) → IsFed header.now.count ws self.now.fed.items
            → column_fault header.now ws first rows ≡ None) }
        ensures refused { IfErr result (λ r. (ws : List Wire) → IsFed header.now.count ws self.now.fed.items
            → RefusesBy (column_fault header.now ws first rows) (first + 7) r) }
    {
        let line = u64::from(first) + 7;
        if u64::from(first) + rows >= u64::from(header.count) {
            return Err(NetlistRefusal::Target { line });
        }
        let Ok(inner) = inner_wires(alloc, first, rows as u32) else {
            return Err(NetlistRefusal::NoMemory);
        };
        if leave(inner.as_slice(), header.end) {
            return Err(NetlistRefusal::EndWired { line });
        }
        if leave_behind(inner.as_slice(), header.place) {
            return Err(NetlistRefusal::LeftWired { line });
        }
        if end_at(inner.as_slice(), header.start) {
            return Err(NetlistRefusal::StartFed { line });
        }
        if self.are_fed(header.count, inner.as_slice()) {
            return Err(NetlistRefusal::TwoSources { line });
        }
        Ok(inner)
    }

    // Whether an earlier wire ends where one of these wires ends.
    fn are_fed(&self, count: u32, wires: &[Wire]) -> bool
        requires marks { length self.now.fed.items ≡ 4 * count }
        requires within { (n : ℕ) (w : Wire) → slice_get wires.now n ≡ Some w →
            (w.to.element < count) × (w.to.line < 4) }
        ensures { (ws : List Wire) → IsFed count ws self.now.fed.items
            → result ≡ some_wire (λ w. is_some (source ws w.to)) wires.now }
    {
        for index in 0..wires.len() {
            if self.is_fed(wires[index].to) {
                return true;
            }
        }
        false
    }

    // Whether a wire ends at this input port.
    #[inline]
    fn is_fed(&self, to: Line) -> bool
        requires fed { (4 * to.element) + to.line < length self.now.fed.items }
        ensures { slice_get self.now.fed.items (4 * to.element + to.line) ≡ Some result }
    {
        self.fed[4 * to.element as usize + to.line as usize]
    }
}

// The port of an element with these two numbers; `None` exactly if the element is not below the count.
pub(crate) fn existing(numbers: (u64, u32), count: u32) -> Option<Line>
    ensures { MatchOption result
        (count ≤ numbers.0)
        (λ l. (l ≡ named numbers) × (numbers.0 < count)) }
{
    let (element, line) = numbers;
    if element >= u64::from(count) {
        return None;
    }
    Some(Line {
        element: element as u32,
        line,
    })
}

// Whether the signal has left by this output port.
fn has_left_by(place: Place, from: Line) -> bool
    ensures { result ≡ is_left_by place from }
{
    match place {
        Place::Enter { .. } => false,
        Place::Left { element, line } => element == from.element && line == from.line,
    }
}
