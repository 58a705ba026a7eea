//! The input ports of the banks of a board, which is the circuit of a network with a bank for each module.

ghost use Rattle.std.specs.Prelude.{◌≡◌, IfSome};
ghost use Rattle.bn_realise.specs.Banks.{bank_input_line, column_at};

use bn_circuits::Line;

/// An input port of a bank (this project's own profile): the bank's first element, the numbers of its states and its
/// ports, and the number of the port. Elements and ports are counted from 0.
#[derive(Clone, Copy, Debug)]
pub struct Entry {
    /// The bank's first element.
    pub first: u32,
    /// The number of columns of the bank, one per state.
    pub states: u32,
    /// The number of rows of a column, one per port.
    pub lines: u32,
    /// The number of the input port, which is its row.
    pub row: u32,
}

impl Entry {
    /// The number of the element after the last one of the bank.
    pub fn end(&self) -> u64
        ensures { result ≡ column_at self.now.first self.now.lines self.now.states }
    {
        u64::from(self.first) + u64::from(self.states) * (u64::from(self.lines) + 1)
    }
}

/// Banks, by the ports at which a signal enters them.
pub trait Banks {
    ghost use Rattle.bn_leap.specs.declared.entry.Entry.{Entry};

    /// Whether this is an input port of one of the banks.
    ghost has: { Self → Entry → Type 0 };

    /// The entry of this input port of a bank; `None` if no bank is found. A bank may be missed.
    fn entry(&self, at: Line) -> Option<Entry>
        ensures { IfSome result (λ v. (has self.now v) × (at ≡ bank_input_line v.first v.row)) };
}
