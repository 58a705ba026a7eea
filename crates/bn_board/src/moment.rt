//! The state of the machine of quadruples whose moment a circuit is at.

ghost use Rattle.std.specs.Prelude.{◌≡◌, ℕ, ◌<◌, length, Some, None};
ghost use Rattle.bn_circuits.specs.declared.place.Place.TheVariants.{Enter};
ghost use Rattle.bn_element.specs.Rotary.{west};
ghost use Rattle.bn_realise.specs.Banks.{bottom_at};
ghost use Rattle.bn_boards.specs.Layouts.{moment_at, is_sent, is_marked_at, end_place, lines_at, elements_of};
ghost use Rattle.bn_board.specs.Flattened.{IsBoardKept, IsFirstWithin};
ghost use Rattle.bn_board.specs.Moments.{IsCommandTo};

use crate::board::Board;
use crate::layout::Layout;
use bn_circuits::{Line, Place};
use bn_element::{HORIZONTAL, WEST};

impl Board {
    /// The state of the machine of quadruples, counted from 0, whose moment this is. For the final state, the signal
    /// has left by the end port; for another state, it enters the first cell of a tape with the first command of that
    /// state, and the control waits for the reply. Allocates no memory. The contract also states what holds for every
    /// circuit afterwards.
    pub fn moment(&self) -> Option<u32>
        ensures moment { result ≡ moment_at self.now.layout self.now.config }
        ensures kept { IsBoardKept self.now }
    {
        match self.place() {
            Place::Enter { element, line } => {
                if line != WEST {
                    return None;
                }
                match self.layout().command_to(element) {
                    Some(command) => self.sent_first(element, command),
                    None => None,
                }
            }
            Place::Left { element, line } => {
                if (Line { element, line }) == self.layout().end_line() {
                    self.ended()
                } else {
                    None
                }
            }
        }
    }

    // The state of the machine that has no first command: the signal has left by the end port.
    fn ended(&self) -> Option<u32>
        requires { self.now.config.place ≡ end_place self.now.layout }
        ensures { result ≡ moment_at self.now.layout self.now.config }
    {
        for (state, first) in self.layout().firsts().iter().enumerate() {
            if first.is_none() {
                return Some(state as u32);
            }
        }
        None
    }

    // The first state of the machine whose first command is this one, if the control waits for its reply.
    fn sent_first(&self, element: u32, command: u32) -> Option<u32>
        requires place { self.now.config.place ≡ Enter element west }
        requires command { IsCommandTo self.now.layout element (Some command) }
        ensures { result ≡ moment_at self.now.layout self.now.config }
    {
        for (state, first) in self.layout().firsts().iter().enumerate() {
            if self.is_sent(element, command, *first) {
                return Some(state as u32);
            }
        }
        None
    }

    // Whether this first command is this one, and the control waits for its reply.
    fn is_sent(&self, element: u32, command: u32, first: Option<(u32, u32)>) -> bool
        requires place { self.now.config.place ≡ Enter element west }
        requires command { IsCommandTo self.now.layout element (Some command) }
        requires within { IsFirstWithin self.now.layout.states (lines_at self.now.layout) first }
        ensures { result ≡ is_sent self.now.layout self.now.config first }
    {
        match first {
            Some((state, line)) => line == command && self.is_marked(self.layout().bottom(state)),
            None => false,
        }
    }

    // Whether an element's bar marks its column.
    pub(crate) fn is_marked(&self, element: u32) -> bool
        requires { element < elements_of self.now.layout }
        ensures { result ≡ is_marked_at self.now.config.states element }
    {
        self.packed().bar(element) == HORIZONTAL
    }
}

impl Layout {
    // The control's output port whose command leads to the west of this element.
    #[tactic(auto, using(crate::proofs::LayoutLemmas::row_within))]
    fn command_to(&self, element: u32) -> Option<u32>
        ensures { IsCommandTo self.now element result }
    {
        let mut first = self.control_size();
        let mut before = 1;
        for tape in 1..4 {
            if element < first {
                return None;
            }
            let commands = self.letters(tape) + 3;
            if element - first < commands {
                return Some(before + (element - first));
            }
            first += self.row_size(tape);
            before += commands;
        }
        None
    }

    // The bottom of the column of a state of the control.
    #[tactic(auto, using(crate::proofs::MomentLemmas::bottom_within))]
    fn bottom(&self, state: u32) -> u32
        requires { state < self.now.states }
        ensures number { result ≡ bottom_at 0 (lines_at self.now) state }
        ensures within { result < elements_of self.now }
    {
        let lines = self.lines();
        state * (lines + 1) + lines
    }
}
