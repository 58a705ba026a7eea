//! The labels in use while a script is read.

ghost use Rattle.std.specs.Prelude.{◌≡◌, ◌++◌, ◌∷◌, [], false, OnOk};
ghost use Rattle.bn_session.specs.Labels.{stands, without};

use bn_lists::NoMemory;
use indexmap::IndexSet;
use std::alloc::Global;
use std::marker::Model;

/// The labels in use, in the order in which they were set. Contracts see their list.
#[derive(Drop)]
pub(crate) struct Standing {
    alloc: Global,
    labels: IndexSet<Vec<u8>>,
}

impl Model for Standing {
    ghost use Rattle.std.specs.Prelude.{ℕ, List, map};

    ghost Value = { List (List ℕ) };

    ghost view = { λ s. map (λ v. v.items) s.labels.keys };
}

impl Standing {
    /// No label.
    pub(crate) fn new(alloc: Global) -> Standing
        ensures { result ≡ [] }
    {
        Standing {
            alloc,
            labels: IndexSet::new(alloc),
        }
    }

    /// Whether a label is in use.
    pub(crate) fn contains(&self, label: &[u8]) -> bool
        ensures { result ≡ stands label.now self.now }
    {
        self.labels.contains(label)
    }

    /// Adds a label that is new.
    pub(crate) fn add(&mut self, label: &[u8]) -> Result<(), NoMemory>
        requires { stands label.now self.old ≡ false }
        ensures { OnOk result (self.new ≡ self.old ++ label.now ∷ []) }
    {
        let owned = Vec::from_slice(self.alloc, label)?;
        self.labels.insert(owned)?;
        Ok(())
    }

    /// Removes a label. The others keep their places.
    pub(crate) fn remove(&mut self, label: &[u8])
        ensures { self.new ≡ without label.now self.old }
    {
        self.labels.shift_remove(label);
    }
}
