//! The search for the quintuple that is applied.
ghost use Rattle.std.specs.Prelude.{◌↔◌, ℕ, IsTrue, MatchOption};
ghost use Rattle.bn_machine.specs.Machine.{IsFirstMatch, HasNoMatch, Matches};

use crate::quint::Quint;

// Whether the quintuple has this state and reads this symbol.
fn is_match(quint: &Quint, state: u32, symbol: u32) -> bool
    ensures { IsTrue result ↔ Matches quint.now state symbol }
{
    state == quint.state && symbol == quint.read
}

// The first quintuple that has this state and reads this symbol.
pub(crate) fn first_match(quints: &[Quint], state: u32, symbol: u32) -> Option<Quint>
    ensures { MatchOption result (HasNoMatch quints.now state symbol) (λ q. (n : ℕ)
        × IsFirstMatch quints.now state symbol n q) }
{
    for quint in quints {
        if is_match(quint, state, symbol) {
            return Some(*quint);
        }
    }
    None
}
