//! Input ports at which a run stops early.

ghost use Rattle.std.specs.Prelude.{◌≡◌};

use bn_circuits::Line;

/// Input ports at which a run stops.
pub trait Stop {
    ghost use Rattle.std.specs.Prelude.{Bool};
    ghost use Rattle.bn_circuits.specs.declared.line.Line.{Line};

    /// The ports at which the run stops.
    ghost stops: { Self → Line → Bool };

    /// Whether a run stops when the signal is about to enter this port.
    fn stops(&self, at: Line) -> bool
        ensures { result ≡ stops self.now at };
}

/// No port: a run goes on to its end.
#[derive(Clone, Copy, Debug)]
pub struct Nowhere;

impl Stop for Nowhere {
    ghost use Rattle.std.specs.Prelude.{false};

    ghost stops = { λ x at. false };

    fn stops(&self, _at: Line) -> bool {
        false
    }
}
