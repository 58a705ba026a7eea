//! A table that is being read.

ghost use Rattle.std.specs.Prelude.{◌≡◌, ◌≢◌, ◌≤◌, ◌++◌, ◌∷◌, [], length, OnOk, IfOk, IfErr};
ghost use Rattle.bn_rsm.specs.Draft.{IsDraft};
ghost use Rattle.bn_rsm.specs.Entry.{IsMove, states_named, lines_named};
ghost use Rattle.bn_rsm.specs.Drafted.{drafted, IsTold};
ghost use Rattle.bn_rsm.specs.declared.table_refusal.RsmTableRefusal.TheVariants as refusal;

use crate::entry::{MOST_ENTRIES, read_move};
use crate::table_refusal::RsmTableRefusal;
use crate::{Rsm, RsmMove, RsmRefusal};
use bn_csv::{Entry, TableDraft};
use bn_lists::NoMemory;
use std::alloc::Global;

/// The moves of the entries read so far, and how many states and ports they name.
#[derive(Drop)]
pub struct Draft {
    states: u32,
    lines: u32,
    moves: Vec<RsmMove>,
}

/// An empty draft. The call takes no memory.
pub fn new_draft(alloc: Global) -> Draft
    ensures draft { IsDraft result }
    ensures none { drafted result ≡ [] }
{
    Draft {
        states: 0,
        lines: 0,
        moves: Vec::new(alloc),
    }
}

// Adds a move.
fn add_move(draft: &mut Draft, step: RsmMove) -> Result<(), NoMemory>
    requires draft { IsDraft draft.old }
    requires within { IsMove step }
    ensures draft { OnOk result (IsDraft draft.new) }
    ensures moves { OnOk result (draft.new.moves.items ≡ draft.old.moves.items ++ step ∷ []) }
{
    draft.states = draft.states.max(step.state + 1).max(step.next + 1);
    draft.lines = draft.lines.max(step.line + 1).max(step.out + 1);
    draft.moves.push(step)?;
    Ok(())
}

impl TableDraft for Draft {
    ghost use Rattle.bn_rsm.specs.TableFaults.{move_form_fault};
    ghost use Rattle.bn_rsm.specs.declared.entry.TheConstants.{MOST_ENTRIES as most};

    type Refusal = RsmTableRefusal;

    const MOST_ENTRIES: u32 = MOST_ENTRIES;

    ghost MOST_ENTRIES = { most };

    ghost is_draft = { IsDraft };

    ghost taken = { drafted };

    ghost form_fault = { move_form_fault };

    ghost too_many = { refusal.TooMany };

    ghost no_memory = { refusal.NoMemory };

    ghost wants = { λ n e h. h };

    fn too_many(entry: u32) -> RsmTableRefusal {
        RsmTableRefusal::TooMany { entry }
    }

    fn add_entry(&mut self, entry: &Entry, number: u32) -> Result<(), RsmTableRefusal> {
        let step = read_move(entry, number)?;
        add_move(self, step)?;
        Ok(())
    }
}

/// The machine of a draft's moves. Returns `Empty` if the draft has no move. If two moves share a pair, returns
/// `SameDomain` or `SameRange` for the first move that leaves or leads to the same pair of state and port as an
/// earlier one.
pub fn into_machine(alloc: Global, draft: Draft) -> Result<Rsm, RsmTableRefusal>
    requires draft { IsDraft draft }
    requires few { length (drafted draft) ≤ MOST_ENTRIES }
    ensures moves { IfOk result (λ r. r.moves ≡ draft.moves.items) }
    ensures states { IfOk result (λ r. r.states ≡ states_named draft.moves.items) }
    ensures lines { IfOk result (λ r. r.lines ≡ lines_named draft.moves.items) }
    ensures some { OnOk result (draft.moves.items ≢ []) }
    ensures refused { IfErr result (IsTold draft.moves.items) }
{
    let Draft {
        states,
        lines,
        moves,
    } = draft;
    if moves.is_empty() {
        return Err(RsmTableRefusal::Empty);
    }
    match Rsm::try_new(alloc, states, lines, moves) {
        Ok(rsm) => Ok(rsm),
        Err(RsmRefusal::SameDomain { i, j }) => Err(RsmTableRefusal::SameDomain { i, j }),
        Err(RsmRefusal::SameRange { i, j }) => Err(RsmTableRefusal::SameRange { i, j }),
        Err(RsmRefusal::NoMemory) => Err(RsmTableRefusal::NoMemory),
        Err(RsmRefusal::Range { .. }) => unreachable!(),
    }
}
