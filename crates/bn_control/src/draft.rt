//! The data from which a control is built, and the parts built from them.
ghost use Rattle.std.specs.Prelude.{◌≡◌};

use crate::finite::lines_before;
use crate::line::{Line, Sending};
use crate::name::StateName;
use crate::named::NamedMove;
use crate::numbered::{in_numbers, rsm_moves};
use crate::order::in_order;
use crate::states::number_of;
use bn_lists::NoMemory;
use bn_rsm::Rsm;
use std::alloc::{AllocError, Global};

/// The data from which a control is built: the number of symbols of each tape of a machine of quadruples, the first
/// command of each of its states, the control's moves by names, possibly with repetitions, and the control's states,
/// each at its number.
#[derive(Drop)]
pub(crate) struct Draft {
    pub(crate) symbols: [u32; 3],
    pub(crate) entries: Vec<Sending>,
    pub(crate) moves: Vec<NamedMove>,
    pub(crate) states: Vec<StateName>,
}

impl Draft {
    ghost use Rattle.std.specs.Prelude.{◌↔◌, ℕ, Some, map, All, IfOk};
    ghost use Rattle.bn_quad.specs.Quadruples.{Quadruples};
    ghost use Rattle.bn_rsm.specs.Machines.{machine_table};
    ghost use Rattle.bn_network.specs.Controls.{IsControlTable, Occurs};
    ghost use Rattle.bn_control.specs.Controlled.{IsTapeAwaited};
    ghost use Rattle.bn_network.specs.Controls.{IsFirstKept};
    ghost use Rattle.bn_control.specs.Entries.{IsFirstSent};
    ghost use Rattle.bn_control.specs.Names.{state_of, IsProper};
    ghost use Rattle.bn_control.specs.Made.{IsDraft, IsSomeDraft, IsSomeEntry, OccursInDraft, AreFirsts, AreAwaited};
    ghost use Rattle.bn_control.specs.Made.{TellsAwaited};

    /// The control as a sequential machine.
    pub(crate) fn rsm(&self, alloc: Global) -> Result<Rsm, NoMemory>
        requires { IsSomeDraft self.now }
        ensures { (m : Quadruples) → IsDraft m self.now
            → IfOk result (λ r. IsControlTable m (map state_of self.now.states.items) (machine_table r)) }
    {
        let states = self.states.as_slice();
        let numbered = in_numbers(alloc, states, &self.symbols, self.moves.as_slice())?;
        let ordered = in_order(numbered)?;
        let moves = rsm_moves(alloc, ordered.as_slice())?;
        let lines = lines_before(&self.symbols, 3);
        Rsm::new(alloc, states.len() as u32, lines, moves)
    }

    /// For each state of the machine of quadruples, the control's state that waits for the reply to its first
    /// command, and the output port of that command.
    pub(crate) fn firsts(&self, alloc: Global) -> Result<Vec<Option<(u32, u32)>>, AllocError>
        requires { IsSomeDraft self.now }
        ensures { (m : Quadruples) → IsDraft m self.now
            → IfOk result (λ v. AreFirsts m self.now.states.items m.states v.items) }
    {
        let mut firsts = Vec::new(alloc);
        for entry in self.entries.iter() {
            firsts.push(self.first(entry))?;
        }
        Ok(firsts)
    }

    // The state and output port recorded for a first command.
    fn first(&self, entry: &Sending) -> Option<(u32, u32)>
        requires { IsSomeEntry self.now entry.now }
        ensures { (m : Quadruples) (a : ℕ) → IsDraft m self.now → IsFirstSent m a entry.now
            → IsFirstKept m (map state_of self.now.states.items) a result }
    {
        match entry.state {
            StateName::End => None,
            state => {
                let number = number_of(self.states.as_slice(), state);
                Some((number, entry.line.out_number(&self.symbols)))
            }
        }
    }

    /// For each state of the control, the state of the machine of quadruples and the tape for whose first read it
    /// waits.
    pub(crate) fn awaited(&self, alloc: Global) -> Result<Vec<Option<(u32, u32)>>, AllocError>
        requires { IsSomeDraft self.now }
        ensures awaited { (m : Quadruples) → IsDraft m self.now
            → IfOk result (λ v. AreAwaited m self.now.states.items v.items) }
        ensures tapes { IfOk result (λ v. All IsTapeAwaited v.items) }
    {
        let mut awaited = Vec::new(alloc);
        for state in self.states.iter() {
            awaited.push(self.awaited_by(*state))?;
        }
        Ok(awaited)
    }

    // The state of the machine and the tape for whose first read this state waits.
    fn awaited_by(&self, state: StateName) -> Option<(u32, u32)>
        requires { OccursInDraft self.now state }
        ensures tells { (m : Quadruples) → IsDraft m self.now → Occurs m (state_of state) → IsProper state
            → TellsAwaited m (state_of state) result }
        ensures tape { IsTapeAwaited result }
    {
        match state {
            StateName::Reads {
                state: from,
                count: 0,
                ..
            } => match self.entries[from as usize].line {
                Line::Tape(tape, _) => Some((from, tape)),
                Line::Outside => None,
            },
            _ => None,
        }
    }
}
