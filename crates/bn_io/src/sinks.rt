//! Where bytes go.
ghost use Rattle.std.specs.Prelude.{◌≡◌, ℕ, ◌<◌, ◌≤◌, List, length, take, Option, OnErr, IfOk};
ghost use Rattle.bn_io.specs.Faults.{HasCause};
ghost use Rattle.bn_io.specs.Told.{Grows};

/// A sink could not take bytes. It has taken none of them.
#[derive(Clone, Copy, Debug, PartialEq, Eq)]
pub struct SinkFailed;

/// A sink of bytes. It may make known which bytes it has taken, and it counts its failures, up to the last value of a
/// counter.
pub trait Sink {
    /// The bytes that it has taken, if it makes them known.
    ghost taken: { Self → Option (List ℕ) };

    /// How often it has failed, up to the last value of its counter.
    ghost faults: { Self → ℕ };

    /// Takes a nonempty prefix of `bytes`, which is not empty, and returns its length. On `SinkFailed` no byte was
    /// taken.
    fn give(&mut self, bytes: &[u8]) -> Result<usize, SinkFailed>
        requires { 0 < length bytes.now }
        ensures bound { IfOk result (λ c. (0 < c) × (c ≤ length bytes.now)) }
        ensures grown { IfOk result (λ c.
            Grows (taken self.old) (taken self.new) (take c bytes.now)) }
        ensures kept { OnErr result (taken self.new ≡ taken self.old) }
        ensures cause { HasCause (faults self.old) (faults self.new) result };
}
