//! The window of cells of each tape.

/// The window of each tape (own to this project): tape 1, the work tape, has its cells at the positions from minus
/// `left1` to `right1`, tape 2, the history, from 0 to `right2`, and tape 3, the output, from 0 to `right3`. Each
/// side of a network's window has at most `MOST_COUNT` cells.
#[derive(Clone, Copy, PartialEq, Eq, Debug)]
pub struct Windows {
    /// The number of cells of tape 1 left of position 0.
    pub left1: u32,
    /// The number of cells of tape 1 right of position 0.
    pub right1: u32,
    /// The number of cells of tape 2 right of position 0: the one-tape machine can make this many steps.
    pub right2: u32,
    /// The number of cells of tape 3 right of position 0.
    pub right3: u32,
}

impl Windows {
    ghost use Rattle.std.specs.Prelude.{◌≡◌, ◌≤◌};
    ghost use Rattle.bn_network.specs.Networks.{cells_in, first_cell};
    ghost use Rattle.bn_network.specs.Limits.{AreSmall};
    ghost use Rattle.bn_network_assembly.specs.Assembled.{limits_of};

    /// The number of cells of a tape, counted from 1 to 3. It takes no memory.
    pub fn cells(&self, tape: u32) -> u32
        requires first { 1 ≤ tape }
        requires last { tape ≤ 3 }
        requires small { AreSmall (limits_of self.now) }
        ensures { result ≡ cells_in (limits_of self.now) tape }
    {
        match tape {
            1 => self.left1 + self.right1 + 1,
            2 => self.right2 + 1,
            _ => self.right3 + 1,
        }
    }

    /// The number of the module that is a tape's first cell; tapes are counted from 1 to 3, and the control is module
    /// 0. It takes no memory.
    pub fn first_cell(&self, tape: u32) -> u32
        requires first { 1 ≤ tape }
        requires last { tape ≤ 3 }
        requires small { AreSmall (limits_of self.now) }
        ensures { result ≡ first_cell (limits_of self.now) tape }
    {
        match tape {
            1 => 1,
            2 => 1 + self.cells(1),
            _ => 1 + self.cells(1) + self.cells(2),
        }
    }
}
