//! The bank of a circuit that the signal is about to enter.

ghost use Rattle.std.specs.Prelude.{◌≡◌, ◌+◌, ◌*◌, ◌<◌, ◌≤◌, IfSome};
ghost use Rattle.bn_network.specs.Networks.{cell_size, cells_in};
ghost use Rattle.bn_boards.specs.Layouts.{symbol_count_at, first_element, elements_of};
ghost use Rattle.bn_board.specs.Entered.{IsEntryIn};

use crate::layout::Layout;
use bn_circuits::Line;
use bn_element::WEST;
use bn_leap::{Banks, Entry};

impl Banks for Layout {
    ghost use Rattle.bn_board.specs.Entered.{IsEntryIn};

    ghost has = { IsEntryIn };

    fn entry(&self, at: Line) -> Option<Entry> {
        if at.line == WEST && at.element < self.elements() {
            self.entered(at.element)
        } else {
            None
        }
    }
}

impl Layout {
    // The bank in whose first column this element is a row.
    fn entered(&self, element: u32) -> Option<Entry>
        requires { element < elements_of self.now }
        ensures { IfSome result (λ v. IsEntryIn self.now v × (element ≡ v.first + v.row)) }
    {
        if element < self.control_size() {
            return self.control_entered(element);
        }
        if element < self.first_element(2) {
            self.entered_on(1, element)
        } else if element < self.first_element(3) {
            self.entered_on(2, element)
        } else {
            self.entered_on(3, element)
        }
    }

    // The control, if this element is a row of its first column.
    fn control_entered(&self, element: u32) -> Option<Entry>
        ensures { IfSome result (λ v. IsEntryIn self.now v × (element ≡ v.first + v.row)) }
    {
        let lines = self.lines();
        if element < lines {
            Some(Entry {
                first: 0,
                states: self.states(),
                lines,
                row: element,
            })
        } else {
            None
        }
    }

    // The cell of this tape in whose first column this element is a row.
    fn entered_on(&self, tape: u32, element: u32) -> Option<Entry>
        requires first { 1 ≤ tape }
        requires last { tape ≤ 3 }
        requires low { first_element self.now tape ≤ element }
        requires high { element
            < first_element self.now tape + cells_in self.now.limits tape * cell_size (symbol_count_at self.now tape) }
        ensures { IfSome result (λ v. IsEntryIn self.now v × (element ≡ v.first + v.row)) }
    {
        let cell = self.cell_of(tape, element);
        let first = self.cell_element(tape, cell);
        let lines = self.cell_lines(tape);
        if element - first < lines {
            Some(Entry {
                first,
                states: 2 * self.letters(tape),
                lines,
                row: element - first,
            })
        } else {
            None
        }
    }
}
