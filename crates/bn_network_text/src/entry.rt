//! The lines of modules.

use std::marker::Model;

/// What a line says of its module. Tables and states are counted from 1.
#[derive(Clone, Copy, PartialEq, Eq, Debug)]
pub enum Kind {
    /// A sequential machine.
    Machine {
        /// The number of its table.
        table: u64,
        /// Its state.
        state: u64,
    },
    /// A rotary element.
    Rotary {
        /// The state of its bar.
        bar: u32,
    },
}

/// The contents of a module's line: the module's number, what it is, and for each of its output ports in order the
/// module and the port, counted from 1, to which it leads, or nothing.
#[derive(Drop)]
pub struct Entry {
    /// The number of the module, from 0.
    pub number: u64,
    /// What it is.
    pub kind: Kind,
    /// Where its output ports lead.
    pub targets: Vec<Option<(u64, u64)>>,
}

impl Model for Entry {
    ghost use Rattle.std.specs.Prelude.{◌≤◌, length};
    ghost use Rattle.bn_base.specs.declared.limits.TheConstants.{MOST_COUNT};
    ghost use Rattle.bn_network_text.specs.Entries.{ModuleLine};

    ghost Value = { ModuleLine };

    ghost view = { λ e. record { number = e.number; kind = e.kind; targets = e.targets.items } };

    ghost invariant = { λ e. length e.targets.items ≤ MOST_COUNT };
}

impl Entry {
    ghost use Rattle.std.specs.Prelude.{◌≡◌, ◌≤◌, length};
    ghost use Rattle.bn_base.specs.declared.limits.TheConstants.{MOST_COUNT};

    // Where its output ports lead.
    pub(crate) fn targets(&self) -> &[Option<(u64, u64)>]
        ensures targets { result.now ≡ self.now.targets }
        ensures few { length self.now.targets ≤ MOST_COUNT }
    {
        self.targets.as_slice()
    }
}
