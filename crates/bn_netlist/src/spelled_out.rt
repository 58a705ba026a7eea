//! Columns that a text spells out, element by element.

ghost use Rattle.std.specs.Prelude.{◌≡◌, ℕ, length, MatchOption};
ghost use Rattle.bn_lists.specs.Lists.{IsLeast};
ghost use Rattle.bn_netlist_laws.specs.Spelling.{circuit_of};
ghost use Rattle.bn_netlist.specs.Drafting.{IsOwnColumn};

use crate::column_lines::column_rows;
use crate::spellable::Spellable;

/// The first element with a line of its own at which a column begins; `None` if there is none.
pub fn first_spelled_out<C: Spellable>(config: &C, own: &[bool]) -> Option<u32>
    requires states { length (C.spelling config.now).config.states ≡ (C.spelling config.now).elements }
    requires lines { length own.now ≡ (C.spelling config.now).elements }
    ensures { MatchOption result
        ((e : ℕ) → IsOwnColumn own.now (circuit_of (C.spelling config.now)) (C.spelling config.now).config.states e
        → ⊥)
        (IsLeast (IsOwnColumn own.now (circuit_of (C.spelling config.now)) (C.spelling config.now).config.states)) }
{
    for element in 0..config.len() {
        if own[element as usize] && column_rows(config, element).is_some() {
            return Some(element);
        }
    }
    None
}
