//! For each input port of the elements another port, in one array.

ghost use Rattle.std.specs.Prelude.{◌≡◌, ◌+◌, ◌*◌, ◌≤◌, [], length, map, Some, IfOk, slice_get, slice_set};
ghost use Rattle.std.specs.Prelude.{replicate, None, vec_capacity};
ghost use Rattle.bn_packed.specs.Ends.{numbers_for};

use crate::cells::{BLOCK, Cell, LINES, cell_at, line_number, nth_line, opposite};
use bn_circuits::{Line, Wire};
use bn_lists::NoMemory;
use std::alloc::Global;
use std::marker::Model;

/// For each input port of this many elements another port: the one that the signal enters next if it crosses the
/// element straight, or the one from which it came, crossing its element straight. The ends are stored by the numbers
/// of the ports, in whole blocks. Contracts see the number of elements, and the list of ends element by element.
#[derive(Debug, Drop)]
pub(crate) struct Ends<C: Cell> {
    elements: u32,
    cells: Vec<C>,
}

impl<C: Cell> Model for Ends<C> {
    ghost use Rattle.std.specs.Prelude.{map, length, ◌≤◌};
    ghost use Rattle.bn_packed.specs.Ends.{EndList, ends_in, numbers_for};

    ghost Value = { EndList };

    ghost view = { λ m. record { elements = m.elements; ends = ends_in (map C.tells m.cells.items) m.elements } };

    ghost invariant = { λ m. (m.elements ≤ C.limit) × (numbers_for m.elements ≤ length m.cells.items) };
}

impl<C: Cell> Ends<C> {
    ghost use Rattle.std.specs.Prelude.{◌++◌, List};
    ghost use Rattle.bn_circuits.specs.declared.line.Wire.{Wire};
    ghost use Rattle.bn_circuits.specs.Wirings.{AreApart, AreFitting};
    ghost use Rattle.bn_packed.specs.Drafts.{AreDrawn};
    ghost use Rattle.bn_packed.specs.Numbers.{line_of};
    ghost use Rattle.bn_packed.specs.Ends.{EndList, IsLineBelow, AreTargets, AreReversed, ends_in};

    /// The ends of no element. Takes no memory.
    pub(crate) fn empty(alloc: Global) -> Ends<C>
        ensures { result ≡ record { elements = 0; ends = [] } }
    {
        Ends {
            elements: 0,
            cells: Vec::new(alloc),
        }
    }

    /// An empty list with capacity for the ends of this many elements.
    pub(crate) fn room(alloc: Global, elements: u32) -> Result<Vec<C>, NoMemory>
        ensures empty { IfOk result (λ v. v.items ≡ []) }
        ensures room { IfOk result (λ v. numbers_for elements ≤ vec_capacity v) }
    {
        let room = Vec::with_capacity(alloc, numbers_for(elements))?;
        Ok(room)
    }

    /// The ends of this many elements, all loose: no port leads to another.
    pub(crate) fn loose(alloc: Global, elements: u32) -> Result<Ends<C>, NoMemory>
        requires { elements ≤ C.limit }
        ensures elements { IfOk result (λ m. m.elements ≡ elements) }
        ensures ends { IfOk result (λ m. m.ends ≡ replicate (4 * elements) None) }
    {
        Ok(Ends::loose_in(Ends::room(alloc, elements)?, elements))
    }

    /// The same, built in `room`, which is empty and has enough capacity. Takes no memory.
    pub(crate) fn loose_in(room: Vec<C>, elements: u32) -> Ends<C>
        requires few { elements ≤ C.limit }
        requires empty { room.items ≡ [] }
        requires room { numbers_for elements ≤ vec_capacity room }
        ensures elements { result.elements ≡ elements }
        ensures ends { result.ends ≡ replicate (4 * elements) None }
    {
        let cells = C::loose(room, numbers_for(elements));
        Ends { elements, cells }
    }

    /// Stores where these wires lead, which are between ports of the elements. If the ends were those of a list of
    /// wires, they are then those of that list followed by these wires, as long as all of them are distinct at both
    /// ends.
    pub(crate) fn lead(&mut self, wires: &[Wire])
        requires fitting { AreFitting self.old.elements wires.now }
        ensures elements { self.new.elements ≡ self.old.elements }
        ensures drawn { (ws : List Wire) → AreDrawn self.old.elements ws self.old → AreApart (ws ++ wires.now)
            → AreDrawn self.old.elements (ws ++ wires.now) self.new }
    {
        for wire in wires {
            self.set(opposite(wire.from), wire.to);
        }
    }

    /// Stores the port to which this one leads.
    pub(crate) fn set(&mut self, line: Line, end: Line)
        requires there { IsLineBelow self.old.elements line }
        requires below { IsLineBelow self.old.elements end }
        ensures elements { self.new.elements ≡ self.old.elements }
        ensures ends { self.new.ends ≡ slice_set self.old.ends (4 * line.element + line.line) (Some end) }
    {
        self.set_at(line_number(line), line_number(end));
    }

    /// The inverse of these ends: for each port to which one leads, the port from which it leads. Built in `room`,
    /// which is empty and has enough capacity. Takes no memory.
    pub(crate) fn inverse_in(&self, room: Vec<C>) -> Ends<C>
        requires targets { AreTargets self.now }
        requires empty { room.items ≡ [] }
        requires room { numbers_for self.now.elements ≤ vec_capacity room }
        ensures elements { result.elements ≡ self.now.elements }
        ensures ends { AreReversed self.now.ends (length self.now.ends) result.ends }
    {
        let mut ends = Ends::loose_in(room, self.elements);
        for place in 0..LINES * self.elements as usize {
            let line = nth_line(place);
            let cell = self.cell(line);
            if !cell.is_loose() {
                ends.set_at(cell.number(), line_number(line));
            }
        }
        ends
    }

    /// The number of elements.
    pub(crate) fn elements(&self) -> u32
        ensures { result ≡ self.now.elements }
    {
        self.elements
    }

    /// The port to which this one leads.
    pub(crate) fn get(&self, line: Line) -> Option<Line>
        requires { IsLineBelow self.now.elements line }
        ensures { slice_get self.now.ends (4 * line.element + line.line) ≡ Some result }
    {
        self.cell(line).end()
    }

    /// The ends, indexed by the numbers of the ports.
    pub(crate) fn as_slice(&self) -> &[C]
        ensures ends { self.now.ends ≡ ends_in (map C.tells result.now) self.now.elements }
        ensures whole { numbers_for self.now.elements ≤ length result.now }
    {
        self.cells.as_slice()
    }

    /// A copy of the ends.
    pub(crate) fn copy(&self, alloc: Global) -> Result<Ends<C>, NoMemory>
        ensures { IfOk result (λ m. m ≡ self.now) }
    {
        let mut cells = Vec::with_capacity(alloc, self.cells.len())?;
        for cell in &self.cells {
            cells.push(*cell)?;
        }
        Ok(Ends {
            elements: self.elements,
            cells,
        })
    }

    // The value that denotes the port to which this one leads.
    fn cell(&self, line: Line) -> C
        requires { IsLineBelow self.now.elements line }
        ensures { slice_get self.now.ends (4 * line.element + line.line) ≡ Some (C.tells result) }
    {
        cell_at(self.cells.as_slice(), line_number(line))
    }

    // Stores that the port with the number `number` leads to the port with the number `end`.
    fn set_at(&mut self, number: usize, end: usize)
        requires there { IsLineBelow self.old.elements (line_of number) }
        requires below { IsLineBelow self.old.elements (line_of end) }
        ensures elements { self.new.elements ≡ self.old.elements }
        ensures ends { self.new.ends
            ≡ slice_set self.old.ends (4 * (line_of number).element + (line_of number).line) (Some (line_of end)) }
    {
        let cells = &mut self.cells;
        cells[number] = C::of(end);
    }
}

// The count of port numbers in the blocks for this many elements.
fn numbers_for(elements: u32) -> usize
    ensures { result ≡ numbers_for elements }
{
    LINES * BLOCK * (elements as usize).div_ceil(BLOCK)
}
