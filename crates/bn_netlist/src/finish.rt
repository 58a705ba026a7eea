//! The value of a text that has been read to its end.

ghost use Rattle.std.specs.Prelude.{◌≡◌, ◌≤◌, ℕ, List, length, IfOk, IfErr, MatchOption};
ghost use Rattle.bn_circuits.specs.declared.net.TheConstants.{MOST_ELEMENTS};
ghost use Rattle.bn_lists.specs.Lists.{IsLeast};
ghost use Rattle.bn_netlist_laws.specs.Spelling.{circuit_of};
ghost use Rattle.bn_netlist_laws.specs.declared.version.Version.TheVariants.{Two};
ghost use Rattle.bn_netlist.specs.Drafting.{IsOwnColumn};
ghost use Rattle.bn_netlist_laws.specs.Sentences.{Sentence};
ghost use Rattle.bn_netlist.specs.Finishing.{IsWholeDraft, SpellsAll, RefusesAll};

use crate::draft::Draft;
use crate::entries::Entries;
use crate::from_wires::FromWires;
use crate::line_refusal::NetlistRefusal;
use crate::spellable::Spellable;
use crate::spelled_out::first_spelled_out;
use bn_netlist_laws::{Header, Version};
use std::alloc::Global;

impl Entries {
    /// The value of the entries after this header, whose lines have all been read; refused if a column is spelled out.
    pub fn into_config<C: FromWires>(
        self,
        alloc: Global,
        header: &Header,
    ) -> Result<C, NetlistRefusal>
        requires few { header.now.count ≤ MOST_ELEMENTS }
        requires whole { IsWholeDraft header.now self.lines self.rows self.states.items self.own.items
            self.ends.drawn self.ends.fed.items }
        ensures made { IfOk result (λ c. SpellsAll header.now self.lines self.rows self.states.items self.own.items
            self.ends.drawn self.ends.fed.items (C.version c) (C.spelling c)) }
        ensures refused { IfErr result (λ r. RefusesAll header.now self.lines self.rows self.states.items
            self.own.items self.ends.drawn self.ends.fed.items r) }
    {
        let Entries {
            states,
            own,
            ends,
            ..
        } = self;
        let Draft { drawn, fed } = ends;
        drop(fed);
        let Ok(made) = C::from_draft(alloc, header, drawn, states) else {
            return Err(NetlistRefusal::NoMemory);
        };
        if let Some(element) = spelled_out_in(&made, own.as_slice()) {
            return Err(NetlistRefusal::Spelling {
                line: u64::from(element) + 7,
            });
        }
        Ok(made)
    }
}

// The first element with a line of its own at which a column begins, if the version of the text forbids this.
fn spelled_out_in<C: Spellable>(config: &C, own: &[bool]) -> Option<u32>
    requires states { length (C.spelling config.now).config.states ≡ (C.spelling config.now).elements }
    requires lines { length own.now ≡ (C.spelling config.now).elements }
    ensures { MatchOption result
        ((e : ℕ) → C.version config.now ≡ Two
        → IsOwnColumn own.now (circuit_of (C.spelling config.now)) (C.spelling config.now).config.states e → ⊥)
        (λ e. (C.version config.now ≡ Two)
        × IsLeast (IsOwnColumn own.now (circuit_of (C.spelling config.now)) (C.spelling config.now).config.states) e) }
{
    match config.version() {
        Version::One => None,
        Version::Two => first_spelled_out(config, own),
    }
}
