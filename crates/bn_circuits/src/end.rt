//! The other end of a port's wire.

ghost use Rattle.std.specs.Prelude.{◌≡◌, ◌<◌, Some, None};

use crate::Line;
use std::marker::Model;

/// The number that no element has, since a net has fewer than 2 to the power 32 of them.
pub(crate) const NO_ELEMENT: u32 = 4_294_967_295;

/// The port at the other end of a wire, or nothing, in eight bytes: an `Option<Line>` takes twelve, and a net of rotary
/// elements has eight of them per element. Contracts see the port, if there is one.
#[derive(Clone, Copy, Debug)]
pub(crate) struct End {
    element: u32,
    line: u32,
}

impl Model for End {
    ghost use Rattle.std.specs.Prelude.{Option};
    ghost use Rattle.bn_circuits.specs.declared.line.Line.{Line};

    ghost Value = { Option Line };

    ghost use Rattle.bn_circuits.specs.Ends.{IsEnd, line_told, numbers_of};
    ghost use Rattle.std.specs.Prelude.{refl};
    ghost use Rattle.std.proofs.Common.{sym, inl, inr};
    ghost use Rattle.std.proofs.lemmas.Bool.Decides.{eqb_tells};

    ghost view = { line_told };

    ghost invariant = { IsEnd };

    ghost inverse = { numbers_of };

    ghost inverse_ok = { λ e whole. elim (eqb_tells e.element 4294967295) [
      | inl is ↦ rw is.0 (λ i. record { element = sym is.1 i; line = sym (whole is.1) i })
      | inr apart ↦ rw apart.0 refl
    ] };
}

impl End {
    /// No port.
    pub(crate) fn none() -> End
        ensures { result ≡ None }
    {
        End {
            element: NO_ELEMENT,
            line: 0,
        }
    }

    /// This port.
    pub(crate) fn of(line: Line) -> End
        requires { line.element < NO_ELEMENT }
        ensures { result ≡ Some line }
    {
        End {
            element: line.element,
            line: line.line,
        }
    }

    /// The port, if there is one.
    pub(crate) fn line(self) -> Option<Line>
        ensures { result ≡ self }
    {
        if self.element == NO_ELEMENT {
            return None;
        }
        Some(Line {
            element: self.element,
            line: self.line,
        })
    }
}
