//! The numbers by which a circuit is read.

ghost use Rattle.std.specs.Prelude.{◌≡◌, ◌<◌, ◌≤◌, ◌+◌, ◌*◌, ◌^◌, length, Some, slice_get, IfOk};
ghost use Rattle.bn_boards.specs.Layouts.{symbol_count_at, lines_at, first_element, cell_element, elements_of};
ghost use Rattle.bn_network.specs.Controls.{lines_before};
ghost use Rattle.bn_network.specs.Networks.{bank_size, cell_size, cells_in, left_of};
ghost use Rattle.bn_network.specs.Cells.{cell_line_count};
ghost use Rattle.bn_boards.specs.Costs.{bound_of};
ghost use Rattle.bn_network_assembly.specs.Assembled.{limits_of};
ghost use Rattle.bn_board.specs.Flattened.{IsLayoutKept, IsFirstWithin};
ghost use Rattle.bn_control.specs.Controlled.{IsTapeAwaited};

use bn_base::MOST_COUNT;
use bn_circuits::MOST_ELEMENTS;
use bn_lists::NoMemory;
use bn_network::MOST_SYMBOLS;
use bn_network_assembly::Windows;
use std::alloc::Global;
use std::marker::Model;

// The numbers by which a circuit is read: the window of each tape; the number of symbols of each tape; the number of
// the control's states; for each state of the machine of quadruples its first command, as the control's state that
// waits for the reply and the output port; and for each state of the control the first read for which it waits, as
// the machine's state and the tape.
#[derive(Drop)]
pub(crate) struct Layout {
    windows: Windows,
    symbols: [u32; 3],
    states: u32,
    firsts: Vec<Option<(u32, u32)>>,
    awaited: Vec<Option<(u32, u32)>>,
}

impl Model for Layout {
    ghost use Rattle.bn_boards.specs.Layouts.{Layout as Numbers};
    ghost use Rattle.bn_network_assembly.specs.Assembled.{limits_of};
    ghost use Rattle.bn_board.specs.Flattened.{IsLayoutKept};

    ghost Value = { Numbers };

    ghost view = { λ b. record {
      limits = limits_of b.windows;
      symbols = b.symbols;
      states = b.states;
      firsts = b.firsts.items;
      awaited = b.awaited.items;
    } };

    ghost invariant = { λ b. IsLayoutKept (record {
      limits = limits_of b.windows;
      symbols = b.symbols;
      states = b.states;
      firsts = b.firsts.items;
      awaited = b.awaited.items;
    }) };
}

impl Layout {
    // The layout with these numbers.
    pub(crate) fn new(
        windows: Windows,
        symbols: [u32; 3],
        states: u32,
        firsts: Vec<Option<(u32, u32)>>,
        awaited: Vec<Option<(u32, u32)>>,
    ) -> Layout
        requires { IsLayoutKept (record {
          limits = limits_of windows;
          symbols = symbols;
          states = states;
          firsts = firsts.items;
          awaited = awaited.items;
        }) }
        ensures { result ≡ record {
          limits = limits_of windows;
          symbols = symbols;
          states = states;
          firsts = firsts.items;
          awaited = awaited.items;
        } }
    {
        Layout {
            windows,
            symbols,
            states,
            firsts,
            awaited,
        }
    }

    // A copy of the layout.
    pub(crate) fn copy(&self, alloc: Global) -> Result<Layout, NoMemory>
        ensures { IfOk result (λ b. b ≡ self.now) }
    {
        let firsts = self.firsts.as_slice().to_vec(alloc)?;
        let awaited = self.awaited.as_slice().to_vec(alloc)?;
        Ok(Layout {
            windows: self.windows,
            symbols: self.symbols,
            states: self.states,
            firsts,
            awaited,
        })
    }

    // The window of each tape.
    pub(crate) fn windows(&self) -> &Windows
        ensures { limits_of result.now ≡ self.now.limits }
    {
        &self.windows
    }

    // The number of symbols of a tape. The contract also states what holds for every layout afterwards.
    pub(crate) fn letters(&self, tape: u32) -> u32
        requires first { 1 ≤ tape }
        requires last { tape ≤ 3 }
        ensures number { result ≡ symbol_count_at self.now tape }
        ensures some { 1 ≤ result }
        ensures few { result ≤ MOST_SYMBOLS }
        ensures kept { IsLayoutKept self.now }
    {
        self.symbols[tape as usize - 1]
    }

    // The number of cells of a tape.
    pub(crate) fn cells(&self, tape: u32) -> u32
        requires first { 1 ≤ tape }
        requires last { tape ≤ 3 }
        ensures number { result ≡ cells_in self.now.limits tape }
        ensures some { 1 ≤ result }
        ensures few { result ≤ 2 * MOST_COUNT + 1 }
    {
        self.windows.cells(tape)
    }

    // The number of cells of a tape left of position 0.
    pub(crate) fn left(&self, tape: u32) -> u32
        requires first { 1 ≤ tape }
        requires last { tape ≤ 3 }
        ensures number { result ≡ left_of self.now.limits tape }
        ensures few { result ≤ MOST_COUNT }
    {
        if tape == 1 { self.windows.left1 } else { 0 }
    }

    // The number of the control's states. The contract also states what holds for every layout afterwards.
    pub(crate) fn states(&self) -> u32
        ensures number { result ≡ self.now.states }
        ensures some { 0 < result }
        ensures kept { IsLayoutKept self.now }
    {
        self.states
    }

    // The first command of each state of the machine.
    pub(crate) fn firsts(&self) -> &[Option<(u32, u32)>]
        ensures { result.now ≡ self.now.firsts }
    {
        self.firsts.as_slice()
    }

    // The first read for which a state of the control waits.
    pub(crate) fn awaited(&self, state: u32) -> Option<(u32, u32)>
        requires { state < self.now.states }
        ensures kept { slice_get self.now.awaited state ≡ Some result }
        ensures tape { IsTapeAwaited result }
    {
        self.awaited[state as usize]
    }

    // The number of the control's ports before those of the next tape; tape 0 is the outside.
    pub(crate) fn lines_before(&self, tape: u32) -> u32
        requires { tape ≤ 3 }
        ensures number { result ≡ lines_before self.now.symbols tape }
        ensures few { result ≤ 1 + tape * (MOST_SYMBOLS + 3) }
        ensures kept { IsLayoutKept self.now }
    {
        let mut lines = 1;
        for index in 0..tape as usize {
            lines += self.symbols[index] + 3;
        }
        lines
    }

    // The number of the control's ports.
    pub(crate) fn lines(&self) -> u32
        ensures number { result ≡ lines_at self.now }
        ensures few { result < 65536 }
        ensures kept { IsLayoutKept self.now }
    {
        self.lines_before(3)
    }

    // The number of elements of the control's bank. The contract also states what holds for every layout afterwards.
    #[tactic(auto, using(crate::proofs::LayoutLemmas::control_within))]
    pub(crate) fn control_size(&self) -> u32
        ensures number { result ≡ bank_size self.now.states (lines_at self.now) }
        ensures few { result ≤ MOST_ELEMENTS }
        ensures kept { IsLayoutKept self.now }
    {
        self.states * (self.lines() + 1)
    }

    // The number of elements of the bank of one of a tape's cells.
    #[tactic(auto, using(crate::proofs::LayoutLemmas::cell_small))]
    pub(crate) fn cell_size(&self, tape: u32) -> u32
        requires first { 1 ≤ tape }
        requires last { tape ≤ 3 }
        ensures number { result ≡ cell_size (symbol_count_at self.now tape) }
        ensures some { 1 ≤ symbol_count_at self.now tape }
    {
        let letters = self.letters(tape);
        2 * letters * (2 * letters + 8 + 1)
    }

    // The number of elements of a tape.
    #[tactic(auto, using(crate::proofs::LayoutLemmas::row_few))]
    pub(crate) fn row_size(&self, tape: u32) -> u32
        requires first { 1 ≤ tape }
        requires last { tape ≤ 3 }
        ensures { result ≡ cells_in self.now.limits tape * cell_size (symbol_count_at self.now tape) }
    {
        self.windows.cells(tape) * self.cell_size(tape)
    }

    // The first element of a tape's cells; for tape 4 the number of all elements. The contract also states what holds
    // for every layout afterwards.
    #[tactic(auto, using(crate::proofs::LayoutLemmas::row_within, crate::proofs::LayoutLemmas::first_within))]
    pub(crate) fn first_element(&self, tape: u32) -> u32
        requires first { 1 ≤ tape }
        requires last { tape ≤ 4 }
        ensures number { result ≡ first_element self.now tape }
        ensures few { result ≤ MOST_ELEMENTS }
        ensures kept { IsLayoutKept self.now }
    {
        let mut first = self.control_size();
        for before in 1..tape {
            first += self.row_size(before);
        }
        first
    }

    // The first element of a tape's cell; cells are counted from the left end, from 0.
    #[tactic(auto, using(crate::proofs::LayoutLemmas::cell_within))]
    pub(crate) fn cell_element(&self, tape: u32, cell: u32) -> u32
        requires first { 1 ≤ tape }
        requires last { tape ≤ 3 }
        requires cell { cell < cells_in self.now.limits tape }
        ensures number { result ≡ cell_element self.now tape cell }
        ensures few { result + cell_size (symbol_count_at self.now tape) ≤ elements_of self.now }
        ensures low { result + cell_size (symbol_count_at self.now tape) ≤ MOST_ELEMENTS }
    {
        self.first_element(tape) + cell * self.cell_size(tape)
    }

    // The number of elements.
    pub(crate) fn elements(&self) -> u32
        ensures number { result ≡ elements_of self.now }
        ensures few { result ≤ MOST_ELEMENTS }
    {
        self.first_element(4)
    }

    // A bound on the number of element steps of a run from the start to its exit.
    pub(crate) fn bound(&self) -> u64
        ensures { result ≡ bound_of self.now }
    {
        let commands = 4 * u64::from(self.windows.right2) + 4 * u64::from(self.windows.right3) + 7;
        48 * u64::from(self.elements()) * commands
    }
}
