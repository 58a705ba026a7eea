//! How far a head has gone.

ghost use Rattle.std.specs.Prelude.{◌≡◌, ◌≤ℤ◌, pos, ◌-ℤ◌, max};
ghost use Rattle.bn_machine.specs.declared.tape.TheConstants.Tape.{GREATEST_SIDE};
ghost use Rattle.bn_extents.specs.Extents.{cells_left, cells_right};

/// How many cells a head has gone from position 0 to the left and to the right, at most.
#[derive(Clone, Copy)]
pub(crate) struct Extent {
    pub(crate) left: u32,
    pub(crate) right: u32,
}

impl Extent {
    /// The extent of a head that has not moved.
    pub(crate) fn at_start() -> Extent
        ensures left { result.left ≡ 0 }
        ensures right { result.right ≡ 0 }
    {
        Extent { left: 0, right: 0 }
    }

    /// Extends the extent to this position.
    pub(crate) fn include(&mut self, position: i64)
        requires low { (pos 0 -ℤ pos GREATEST_SIDE) ≤ℤ position }
        requires high { position ≤ℤ pos GREATEST_SIDE }
        ensures left { self.new.left ≡ max self.old.left (cells_left position) }
        ensures right { self.new.right ≡ max self.old.right (cells_right position) }
    {
        self.left = self.left.max(left_of(position));
        self.right = self.right.max(right_of(position));
    }
}

// The number of cells from the position to 0, if the position is left of 0.
fn left_of(position: i64) -> u32
    requires low { (pos 0 -ℤ pos GREATEST_SIDE) ≤ℤ position }
    ensures { result ≡ cells_left position }
{
    if position < 0 { (-position) as u32 } else { 0 }
}

// The number of cells from 0 to the position, if the position is right of 0.
fn right_of(position: i64) -> u32
    requires high { position ≤ℤ pos GREATEST_SIDE }
    ensures { result ≡ cells_right position }
{
    if position < 0 { 0 } else { position as u32 }
}
