//! The cells of a tape that are shown.

ghost use Rattle.std.specs.Prelude.{◌≡◌, ◌<◌, ◌≤◌, ◌^◌, ◌≢◌, length, All, ℕ, List, pos, ◌+ℤ◌, ◌-ℤ◌, ◌≤ℤ◌};
ghost use Rattle.bn_machine.specs.Tape.{Tape as Endless, word_tape};
ghost use Rattle.bn_machine.specs.Window.{IsWindowed};
ghost use Rattle.bn_reply_traces.specs.Extents.{IsFirst, IsLast};
ghost use Rattle.bn_reply_traces.specs.QuadStages.{IsStepped};
ghost use Rattle.bn_reply_traces.specs.Stages.{IsMoved, StandsFor};

use bn_machine::Tape;
use bn_reply_machines::letter_at;

/// The positions of the first and of the last cell of a tape that is not blank or has the head.
#[derive(Clone, Copy, PartialEq, Eq, Debug)]
pub(crate) struct Extent {
    pub(crate) first: i64,
    pub(crate) last: i64,
}

impl Extent {
    // The same for a word of this many letters from position 1 on, with the head at 0.
    pub(crate) fn of_word(letters: usize) -> Extent
        requires { letters < 2 ^ 62 }
        ensures first { (word : List ℕ) → letters ≡ length word → IsFirst (word_tape word) result.first }
        ensures last { (word : List ℕ) → letters ≡ length word → All (λ s. s ≢ 0) word →
            IsLast (word_tape word) result.last }
    {
        Extent {
            first: 0,
            last: letters as i64,
        }
    }

    // The number of cells.
    pub(crate) fn cells(self) -> u64
        requires ordered { self.first ≤ℤ self.last }
        requires low { (pos 0 -ℤ pos (2 ^ 32)) ≤ℤ self.first }
        requires high { self.last ≤ℤ pos (2 ^ 62) }
        ensures { (self.first +ℤ pos result) ≡ (self.last +ℤ pos 1) }
    {
        (self.last - self.first) as u64 + 1
    }

    // The same for the tape after a step that moved the head away from `left`.
    pub(crate) fn follow(self, left: i64, tape: &Tape) -> Extent
        ensures first { (t u : Endless) (word : List ℕ) → StandsFor tape.now word u → left ≤ℤ pos tape.now.right →
            IsStepped t u left → IsFirst t self.first → IsFirst u result.first }
        ensures last { (t u : Endless) (word : List ℕ) → StandsFor tape.now word u → left ≤ℤ pos tape.now.right →
            IsStepped t u left → IsLast t self.last → IsLast u result.last }
        ensures windowed { IsWindowed tape.now }
    {
        let head = tape.head();
        let is_blank = letter_at(tape, left).is_none();
        self.after(left, is_blank, head)
    }

    // The same for the tape after a step that moved the head from `left` to `head`, and left a blank there or not.
    pub(crate) fn after(self, left: i64, is_blank: bool, head: i64) -> Extent
        ensures first { (t u : Endless) → IsMoved t u left is_blank head → IsFirst t self.first →
            IsFirst u result.first }
        ensures last { (t u : Endless) → IsMoved t u left is_blank head → IsLast t self.last → IsLast u result.last }
    {
        Extent {
            first: first_after(self.first, left, is_blank, head),
            last: last_after(self.last, left, is_blank, head),
        }
    }
}

// The first such cell after a step: the head's, if the head was at the first one and left a blank.
fn first_after(first: i64, left: i64, is_blank: bool, head: i64) -> i64
    ensures { (t u : Endless) → IsMoved t u left is_blank head → IsFirst t first → IsFirst u result }
{
    if is_blank && first == left {
        return head;
    }
    if head < first {
        return head;
    }
    first
}

// The last such cell after a step: the head's, if the head was at the last one and left a blank.
fn last_after(last: i64, left: i64, is_blank: bool, head: i64) -> i64
    ensures { (t u : Endless) → IsMoved t u left is_blank head → IsLast t last → IsLast u result }
{
    if is_blank && last == left {
        return head;
    }
    if last < head {
        return head;
    }
    last
}
