//! How far the heads of three tapes have gone.

ghost use Rattle.std.specs.Prelude.{◌≡◌, ◌≤ℤ◌, pos, ◌-ℤ◌, ℕ};
ghost use Rattle.bn_machine.specs.declared.tape.TheConstants.Tape.{GREATEST_SIDE};
ghost use Rattle.bn_extents.specs.Extents.{cells_left, cells_right};
ghost use Rattle.bn_quad.specs.Calls.{configuration};
ghost use Rattle.bn_rooms.specs.Reach.{no_reach, reach_to, with_words};
ghost use Rattle.bn_reply_rooms.specs.RoomRun.{limits_of, reach_of};

use bn_quad::Tapes;

/// The symbols of the words on the three tapes at the start of a run.
#[derive(Clone, Copy)]
pub(crate) struct StartWords<'a> {
    pub(crate) one: &'a [u32],
    pub(crate) two: &'a [u32],
    pub(crate) three: &'a [u32],
}

/// A window of the three tapes, in the order in which `drive` takes its numbers.
#[derive(Clone, Copy)]
pub(crate) struct Room {
    /// The cells left of position 0 on tape 1.
    pub(crate) left1: u32,
    /// The cells right of position 0 on tape 1.
    pub(crate) right1: usize,
    /// The cells right of position 0 on tape 2.
    pub(crate) right2: usize,
    /// The cells right of position 0 on tape 3.
    pub(crate) right3: usize,
}

/// How many cells the heads have gone from position 0, at most: on tape 1 to the left, and on each tape to the right.
#[derive(Clone, Copy)]
pub(crate) struct Reach {
    pub(crate) left1: u32,
    pub(crate) right1: u32,
    pub(crate) right2: u32,
    pub(crate) right3: u32,
}

impl Reach {
    /// The reach of heads that have not moved.
    pub(crate) fn at_start() -> Reach
        ensures { reach_of result ≡ no_reach }
    {
        Reach {
            left1: 0,
            right1: 0,
            right2: 0,
            right3: 0,
        }
    }

    /// Takes in where the heads are.
    pub(crate) fn include(&mut self, tapes: &Tapes)
        ensures { (state : ℕ) → reach_of self.new ≡ reach_to (reach_of self.old) (configuration state tapes.now) }
    {
        let one = tapes.one.head();
        self.left1 = self.left1.max(left_of(one));
        self.right1 = self.right1.max(right_of(one));
        self.right2 = self.right2.max(right_of(tapes.two.head()));
        self.right3 = self.right3.max(right_of(tapes.three.head()));
    }

    /// The least window for this reach that also has room for the words.
    pub(crate) fn with_words(&self, words: &StartWords<'_>) -> Room
        ensures { limits_of result
            ≡ with_words (reach_of self.now) words.now.one.now words.now.two.now words.now.three.now }
    {
        Room {
            left1: self.left1,
            right1: (self.right1 as usize).max(words.one.len()),
            right2: (self.right2 as usize).max(words.two.len()),
            right3: (self.right3 as usize).max(words.three.len()),
        }
    }
}

// How many cells the position lies left of 0.
fn left_of(position: i64) -> u32
    requires low { (pos 0 -ℤ pos GREATEST_SIDE) ≤ℤ position }
    ensures { result ≡ cells_left position }
{
    if position < 0 { (-position) as u32 } else { 0 }
}

// How many cells the position lies right of 0.
fn right_of(position: i64) -> u32
    requires high { position ≤ℤ pos GREATEST_SIDE }
    ensures { result ≡ cells_right position }
{
    if position < 0 { 0 } else { position as u32 }
}
