//! The states that a script names.

ghost use Rattle.std.specs.Prelude.{◌≡◌, OnOk, IfOk, MatchOption, slice_get, Some, Contains};

use bn_lists::NoMemory;
use bn_quad::QuadNames;
use indexmap::IndexMap;
use std::alloc::Global;
use std::marker::Model;

/// The names of the states, with the numbers of those that were looked up: each name is searched once. Contracts see
/// the list of the names.
#[derive(Drop)]
pub(crate) struct States<'a> {
    alloc: Global,
    names: &'a QuadNames,
    known: IndexMap<Vec<u8>, u32>,
}

impl<'a> Model for States<'a> {
    ghost use Rattle.std.specs.Prelude.{ℕ, List, ◌≡◌, Some, slice_get, All};

    ghost Value = { List (List ℕ) };

    ghost view = { λ s. s.names.now.states };

    ghost invariant = { λ s. All (λ e. slice_get s.names.now.states e.1 ≡ Some e.0.items) s.known.entries };
}

impl<'a> States<'a> {
    /// The states with these names.
    pub(crate) fn new(alloc: Global, names: &QuadNames) -> States<'_>
        ensures { result ≡ names.now.states }
    {
        States {
            alloc,
            names,
            known: IndexMap::new(alloc),
        }
    }

    /// The number of the state with a name, counted from 0; `None` exactly if no state has the name.
    pub(crate) fn find(&mut self, name: &[u8]) -> Result<Option<u32>, NoMemory>
        ensures found { IfOk result (λ found. MatchOption found (¬ Contains self.old name.now)
            (λ number. slice_get self.old number ≡ Some name.now)) }
        ensures names { self.new ≡ self.old }
    {
        if let Some(number) = self.known.get(name) {
            return Ok(Some(*number));
        }
        let Some(number) = self.names.find_state(name) else {
            return Ok(None);
        };
        self.note(name, number)?;
        Ok(Some(number))
    }

    // Stores the number of the state with a name.
    fn note(&mut self, name: &[u8], number: u32) -> Result<(), NoMemory>
        requires { slice_get self.old number ≡ Some name.now }
        ensures { self.new ≡ self.old }
    {
        let owned = Vec::from_slice(self.alloc, name)?;
        self.known.insert(owned, number)?;
        Ok(())
    }
}
