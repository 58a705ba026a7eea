//! The exit by which the signal of a circuit has left.

ghost use Rattle.std.specs.Prelude.{◌≡◌, ◌↔◌, ℕ, ◌+◌, ◌-◌, ◌<◌, ◌≤◌, Some, IfSome, IfNone};
ghost use Rattle.bn_circuits.specs.declared.place.Place.TheVariants.{Left};
ghost use Rattle.bn_network.specs.Cells.{cell_line_count};
ghost use Rattle.bn_network.specs.Controls.{lines_before};
ghost use Rattle.bn_network.specs.Networks.{cells_in};
ghost use Rattle.bn_board.specs.Flattened.{end_line};
ghost use Rattle.bn_boards.specs.Layouts.{IsExit, IsNamedExit, cell_output, end_place, symbol_count_at, lines_at};
ghost use Rattle.bn_boards.specs.declared.exit.Exit.{Exit};
ghost use Rattle.bn_boards.specs.declared.exit.Exit.TheVariants.{Stuck, Window};
ghost use Rattle.bn_machine.specs.declared.quint.Side.{Side};

use crate::board::Board;
use crate::layout::Layout;
use bn_boards::Exit;
use bn_circuits::{Line, Place};
use bn_element::{EAST, WEST};
use bn_machine::Side;

impl Board {
    /// The exit by which the signal has left, or `Inside` if it has not left. Allocates no memory.
    pub fn exit_of(&self) -> Exit
        ensures { IsExit self.now.layout self.now.config.place result }
    {
        self.layout().exit_of(self.place())
    }
}

impl Layout {
    // The exit by which a signal at this place has left.
    pub(crate) fn exit_of(&self, place: Place) -> Exit
        ensures { IsExit self.now place result }
    {
        match place {
            Place::Enter { .. } => Exit::Inside,
            Place::Left { element, line } => self.exit_by(Line { element, line }),
        }
    }

    // The exit of a signal that has left by this port.
    fn exit_by(&self, left: Line) -> Exit
        ensures { IsExit self.now (Left left.element left.line) result }
    {
        if left == self.end_line() {
            return Exit::End;
        }
        if let Some((state, symbol)) = self.stuck_at(left) {
            return Exit::Stuck { state, symbol };
        }
        match self.window_at(left) {
            Some((tape, side)) => Exit::Window { tape, side },
            None => Exit::Unnamed,
        }
    }

    // The control's port to the outside.
    #[tactic(auto, using(crate::proofs::ExitLemmas::end_within))]
    pub(crate) fn end_line(&self) -> Line
        ensures place { Left result.element result.line ≡ end_place self.now }
        ensures line { result ≡ end_line self.now }
    {
        Line {
            element: (self.states() - 1) * (self.lines() + 1),
            line: EAST,
        }
    }

    // The state and the symbol for which the machine has no quadruple, if this is the control's port by which the
    // signal then leaves.
    fn stuck_at(&self, left: Line) -> Option<(u32, u32)>
        ensures { (a c : ℕ) → (result ≡ Some (a, c)) ↔ IsNamedExit self.now (Left left.element left.line) (Stuck a c) }
    {
        let rows = self.lines() + 1;
        let state = left.element / rows;
        if state >= self.states() || left.line != WEST {
            return None;
        }
        let Some((from, tape)) = self.awaited(state) else {
            return None;
        };
        match self.answer_at(tape, left.element % rows) {
            Some(symbol) => Some((from, symbol)),
            None => None,
        }
    }

    // The symbol that this port of the control carries as a tape's reply, if it carries one.
    fn answer_at(&self, tape: u32, line: u32) -> Option<u32>
        requires first { 1 ≤ tape }
        requires last { tape ≤ 3 }
        ensures { (c : ℕ) → (result ≡ Some c)
            ↔ ((c < symbol_count_at self.now tape) × (line ≡ lines_before self.now.symbols (tape - 1) + c)) }
    {
        let first = self.lines_before(tape - 1);
        if first <= line && line < first + self.letters(tape) {
            Some(line - first)
        } else {
            None
        }
    }

    // The tape and the side of its window at which a signal leaves by this port.
    fn window_at(&self, left: Line) -> Option<(u32, Side)>
        ensures named { IfSome result (λ w. IsNamedExit self.now (Left left.element left.line) (Window w.0 w.1)) }
        ensures none { IfNone result ((t : ℕ) (s : Side)
            → IsNamedExit self.now (Left left.element left.line) (Window t s) → ⊥) }
    {
        for tape in 1..4 {
            if let Some(side) = self.side_at(tape, left) {
                return Some((tape, side));
            }
        }
        None
    }

    // The side of this tape's window at which a signal leaves by this port.
    fn side_at(&self, tape: u32, left: Line) -> Option<Side>
        requires first { 1 ≤ tape }
        requires last { tape ≤ 3 }
        ensures named { IfSome result (λ s. IsNamedExit self.now (Left left.element left.line) (Window tape s)) }
        ensures none { IfNone result ((s : Side)
            → IsNamedExit self.now (Left left.element left.line) (Window tape s) → ⊥) }
    {
        let letters = self.letters(tape);
        if left == self.output_line(tape, self.cells(tape) - 1, letters + 3) {
            Some(Side::Right)
        } else if left == self.output_line(tape, 0, 2 * letters + 7) {
            Some(Side::Left)
        } else {
            None
        }
    }

    // An output port of a tape's cell.
    #[tactic(auto, using(crate::proofs::ExitLemmas::output_few))]
    fn output_line(&self, tape: u32, cell: u32, line: u32) -> Line
        requires first { 1 ≤ tape }
        requires last { tape ≤ 3 }
        requires cell { cell < cells_in self.now.limits tape }
        requires line { line < cell_line_count (symbol_count_at self.now tape) }
        ensures { Left result.element result.line ≡ cell_output self.now tape cell line }
    {
        let letters = self.letters(tape);
        Line {
            element: self.cell_element(tape, cell)
                + (2 * letters - 1) * (2 * letters + 8 + 1)
                + line,
            line: EAST,
        }
    }
}
