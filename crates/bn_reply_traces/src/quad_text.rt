//! The line of a configuration of a run of a machine of quadruples.

ghost use Rattle.std.specs.Prelude.{◌≡◌, ◌++◌, ◌∷◌, [], ℕ, List, IfOk, OnOk, length};
ghost use Rattle.bn_machine.specs.Tape.{Tape as Endless};
ghost use Rattle.bn_quad.specs.Quadruples.{Configuration};
ghost use Rattle.bn_reply.specs.Lines.{line};
ghost use Rattle.bn_reply_traces.specs.ConfigurationText.{IsConfigurationText, name_in};
ghost use Rattle.bn_reply_traces.specs.MomentText.{IsTapeText, rule_text};
ghost use Rattle.bn_reply_traces.specs.MomentsReply.{ComesOut, Outcome, moments_outcome_line, outcome_status};
ghost use Rattle.bn_reply_traces.specs.QuadStages.{IsQuadEndedAt, IsQuadRun, IsSomeStage, IsStageIn, IsTapeStage};
ghost use Rattle.bn_reply_traces.specs.QuadStages.{table_in};

use crate::extent::Extent;
use crate::quad_run::QuadRun;
use crate::quad_stage::QuadStage;
use crate::tape_text::{Spells, push_tape};
use crate::trace::push_rule;
use bn_base::push_u64;
use bn_lists::NoMemory;
use bn_machine::Tape;
use bn_reply::{Status, push, push_counted};
use bn_reply_machines::TapeNames;

// Appends the number of steps that led to a configuration, its state, and what its tapes show.
pub(crate) fn push_configuration(
    text: &mut Vec<u8>,
    run: &QuadRun<'_>,
    stage: &QuadStage,
    steps: u32,
) -> Result<(), NoMemory>
    requires run { IsQuadRun run.now }
    requires stage { IsSomeStage run.now steps stage.now }
    ensures { (c : Configuration ℕ) → IsStageIn run.now steps c stage.now → OnOk result ((shown : List ℕ)
        × IsConfigurationText (table_in run.now) steps c shown × (text.new.items ≡ text.old.items ++ shown)) }
{
    let tapes = &stage.tapes;
    let extents = stage.extents;
    push_u64(text, u64::from(steps))?;
    push(text, b" ")?;
    push(text, run.names.state(stage.state))?;
    push_numbered(
        text,
        b" tape 1",
        &run.symbols(1),
        &tapes.one,
        run.words.one,
        extents.one,
    )?;
    push_numbered(
        text,
        b" tape 2",
        &run.symbols(2),
        &tapes.two,
        run.words.two,
        extents.two,
    )?;
    push_numbered(
        text,
        b" tape 3",
        &run.symbols(3),
        &tapes.three,
        run.words.three,
        extents.three,
    )
}

// Appends what a tape shows, after its number.
fn push_numbered(
    text: &mut Vec<u8>,
    number: &[u8],
    names: &TapeNames<'_>,
    tape: &Tape,
    word: &[u32],
    extent: Extent,
) -> Result<(), NoMemory>
    requires { (n i : ℕ) × (t : Endless) × IsTapeStage (length names.now) word.now n i tape.now extent t }
    ensures { (n i : ℕ) (t : Endless) → IsTapeStage (length names.now) word.now n i tape.now extent t → OnOk result
        ((shown : List ℕ) × IsTapeText (name_in names.now) t shown
        × (text.new.items ≡ text.old.items ++ (number.now ++ shown))) }
{
    push(text, number)?;
    push_tape(text, names, tape, word, extent)
}

// Appends the end of the line: the number of the quadruple that is applied next, if there is one.
pub(crate) fn push_line_end(text: &mut Vec<u8>, rule: Option<u32>) -> Result<(), NoMemory>
    ensures { OnOk result (text.new.items ≡ text.old.items ++ line (rule_text rule ∷ [])) }
{
    push_rule(text, rule)?;
    push(text, b"\n")
}

// Appends the line that says how a run ends after this many steps, where this is the quadruple that is applied next, if
// there is one. Returns its status.
pub(crate) fn push_moments_outcome(
    text: &mut Vec<u8>,
    run: &QuadRun<'_>,
    stage: &QuadStage,
    steps: u32,
    rule: Option<u32>,
) -> Result<Status, NoMemory>
    requires run { IsQuadRun run.now }
    requires ended { (c : Configuration ℕ) × IsQuadEndedAt run.now c stage.now steps rule }
    ensures { (c : Configuration ℕ) (o : Outcome) → IsQuadEndedAt run.now c stage.now steps rule →
        ComesOut run.now.machine.now run.now.most_steps steps c o → IfOk result (λ status.
        (status ≡ outcome_status o)
        × (text.new.items ≡ text.old.items ++ moments_outcome_line (table_in run.now) steps c o)) }
{
    if rule.is_some() {
        push_counted(text, b"running ", u64::from(steps))?;
        return Ok(Status::Inside);
    }
    if stage.state == run.machine.final_state() {
        push_counted(text, b"halted ", u64::from(steps))?;
        return Ok(Status::Done);
    }
    push_stuck(text, run, stage, steps)?;
    Ok(Status::Stuck)
}

// Appends the line of a machine that is stuck.
fn push_stuck(
    text: &mut Vec<u8>,
    run: &QuadRun<'_>,
    stage: &QuadStage,
    steps: u32,
) -> Result<(), NoMemory>
    requires run { IsQuadRun run.now }
    requires stage { IsSomeStage run.now steps stage.now }
    ensures { (c : Configuration ℕ) → IsStageIn run.now steps c stage.now → OnOk result (text.new.items
        ≡ text.old.items ++ moments_outcome_line (table_in run.now) steps c Outcome.Stuck) }
{
    push(text, b"stuck ")?;
    push(text, run.names.state(stage.state))?;
    push(text, b" ")?;
    run.symbols(1).push_symbol(text, stage.tapes.one.scanned())?;
    push(text, b" ")?;
    run.symbols(2).push_symbol(text, stage.tapes.two.scanned())?;
    push(text, b" ")?;
    run.symbols(3)
        .push_symbol(text, stage.tapes.three.scanned())?;
    push_counted(text, b" ", u64::from(steps))
}
