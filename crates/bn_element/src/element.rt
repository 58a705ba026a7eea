//! What every element of a circuit is: a finite table that can be read both ways.

ghost use Rattle.std.specs.Prelude.{◌≡◌, ◌<◌};

/// An element of a circuit: a partial one-to-one function from pairs of state and input port to pairs of state and
/// output port. States and ports (`line` in names) are counted from 0. (A reversible sequential machine, Morita 2017;
/// that a pair may have no move is this project's own profile.)
///
/// No call allocates memory.
pub trait Element: Drop {
    ghost use Rattle.bn_element.specs.Tables.{Table, IsReversible};

    /// The element as a table.
    ghost table: { Self → Table };

    /// The number of input ports.
    fn lines_in(&self) -> u32
        ensures { result ≡ (table self.now).inputs };

    /// The number of output ports.
    fn lines_out(&self) -> u32
        ensures { result ≡ (table self.now).outputs };

    /// The number of states.
    fn states(&self) -> u32
        ensures { result ≡ (table self.now).states };

    /// Where a signal that enters by this input port in this state goes: the next state and the output port, or `None`
    /// exactly if the table has no move for the pair.
    fn go(&self, state: u32, line: u32) -> Option<(u32, u32)>
        requires state { state < (table self.now).states }
        requires line { line < (table self.now).inputs }
        ensures { result ≡ (table self.now).go state line };

    /// Where a signal that left by this output port, with this state after it, came from: the previous state and the
    /// input port, or `None` exactly if no move leads to the pair.
    fn back(&self, state: u32, line: u32) -> Option<(u32, u32)>
        requires state { state < (table self.now).states }
        requires line { line < (table self.now).outputs }
        ensures { result ≡ (table self.now).back state line };

    /// `go` and `back` undo each other, and every number is in range.
    ghost reversible: { (x : Self) → IsReversible (table x) };
}
