//! Where a command reads its input.
ghost use Rattle.std.specs.Prelude.{◌≡◌, ◌↔◌, ℕ, ◌<◌, ◌≤◌, List, [], drop, length, take, Option, Some, option_map};
ghost use Rattle.std.specs.Prelude.{OnErr, IfOk, IfSome, IsTrue, is_some};
ghost use Rattle.bn_io.specs.Faults.{HasCause};
ghost use Rattle.bn_io.specs.Told.{Loses};

use crate::slice_input::SliceInput;
use crate::sources::{Source, SourceFailed};

/// Where a command reads its input: any source, or bytes in memory, which are lent whole, so that none of them is
/// copied. (This project's own profile.)
pub trait Input {
    /// The bytes that are left, if it makes them known.
    ghost left: { Self → Option (List ℕ) };

    /// How often it has failed, up to the last value of its counter.
    ghost faults: { Self → ℕ };

    /// It has neither failed nor reported its end, as far as it makes this known.
    ghost open: { Self → Type 0 };

    /// It was called for bytes after it had failed or had reported its end.
    ghost overrun: { Self → Type 0 };

    /// It lends all bytes that are left.
    ghost lends: { Self → Type 0 };

    /// Writes the next bytes to the front of `into`, as `Source::take` does.
    fn take(&mut self, into: &mut [u8]) -> Result<usize, SourceFailed>
        requires { 0 < length into.old }
        ensures bound { IfOk result (λ c. c ≤ length into.old) }
        ensures given { IfOk result (λ c.
            Loses (left self.old) (left self.new) (take c into.new)) }
        ensures ended { IfOk result (λ c.
            IfSome (left self.old) (λ xs. (c ≡ 0) ↔ (xs ≡ []))) }
        ensures kept { OnErr result (left self.new ≡ left self.old) }
        ensures cause { HasCause (faults self.old) (faults self.new) result }
        ensures goes_on { IfOk result (λ c. 0 < c → «open» self.old → «open» self.new) }
        ensures in_time { «open» self.old → overrun self.new → overrun self.old };

    /// All bytes that are left, if they are in memory.
    fn rest(&self) -> Option<&[u8]>
        ensures { IfSome result (λ bytes. lends self.now × (left self.now ≡ Some bytes.now)) };

    /// Takes the first `count` of the bytes that it lends, if it lends any.
    fn take_lent(&mut self, count: usize)
        ensures less { lends self.old → left self.new ≡ option_map (drop count) (left self.old) }
        ensures faultless { faults self.new ≡ faults self.old }
        ensures in_time { «open» self.old → overrun self.new → overrun self.old };
}

impl<S: Source> Input for S {
    ghost left = { S.left };

    ghost faults = { S.faults };

    ghost open = { S.open };

    ghost overrun = { S.overrun };

    ghost lends = { λ _. ⊥ };

    fn take(&mut self, into: &mut [u8]) -> Result<usize, SourceFailed> {
        Source::take(self, into)
    }

    fn rest(&self) -> Option<&[u8]> {
        None
    }

    fn take_lent(&mut self, count: usize) {}
}

impl Input for SliceInput<'_> {
    ghost left = { λ s. Some s.rest.now };

    ghost faults = { λ _. 0 };

    ghost open = { λ _. Unit {0} };

    ghost overrun = { λ _. ⊥ };

    ghost lends = { λ _. Unit {0} };

    fn take(&mut self, into: &mut [u8]) -> Result<usize, SourceFailed> {
        let count = into.len().min(self.rest.len());
        into[..count].copy_from_slice(&self.rest[..count]);
        self.rest = &self.rest[count..];
        Ok(count)
    }

    fn rest(&self) -> Option<&[u8]>
        ensures lent { IsTrue (is_some result) }

        ensures lends { IfSome result (λ bytes. Unit {0} × (Some self.now.rest.now ≡ Some bytes.now)) }
    {
        Some(self.rest)
    }

    fn take_lent(&mut self, count: usize) {
        let all = self.rest;
        self.rest = &all[count.min(all.len())..];
    }
}
