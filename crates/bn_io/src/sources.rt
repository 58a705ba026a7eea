//! Where bytes come from.
ghost use Rattle.std.specs.Prelude.{◌≡◌, ◌↔◌, ℕ, ◌<◌, ◌≤◌, List, [], length, take, Option, OnErr, IfOk, IfSome};
ghost use Rattle.bn_io.specs.Faults.{HasCause};
ghost use Rattle.bn_io.specs.Told.{Loses};

/// A source could not give its next bytes. It has given none of them.
#[derive(Clone, Copy, Debug, PartialEq, Eq)]
pub struct SourceFailed;

/// A source of bytes. It may make known which bytes it has left, and it counts its failures, up to the last value of a
/// counter.
pub trait Source {
    /// The bytes that are left, if it makes them known.
    ghost left: { Self → Option (List ℕ) };

    /// How often it has failed, up to the last value of its counter.
    ghost faults: { Self → ℕ };

    /// It has neither failed nor reported its end, as far as it makes this known.
    ghost open: { Self → Type 0 };

    /// It was called for bytes after it had failed or had reported its end.
    ghost overrun: { Self → Type 0 };

    /// Writes the next bytes to the front of `into`, which is not empty, and returns how many: 0 only at the end of
    /// input. On `SourceFailed` no byte was taken from the source, and the contents of `into` are unspecified.
    fn take(&mut self, into: &mut [u8]) -> Result<usize, SourceFailed>
        requires { 0 < length into.old }
        ensures bound { IfOk result (λ c. c ≤ length into.old) }
        ensures given { IfOk result (λ c.
            Loses (left self.old) (left self.new) (take c into.new)) }
        ensures ended { IfOk result (λ c.
            IfSome (left self.old) (λ xs. (c ≡ 0) ↔ (xs ≡ []))) }
        ensures kept { OnErr result (left self.new ≡ left self.old) }
        ensures cause { HasCause (faults self.old) (faults self.new) result }
        ensures goes_on { IfOk result (λ c. 0 < c → «open» self.old → «open» self.new) }
        ensures in_time { «open» self.old → overrun self.new → overrun self.old };
}
