//! A configuration text of which a prefix has been received.

ghost use Rattle.std.specs.Prelude.{◌≡◌, ◌+◌, ℕ, List, ◌++◌, ◌∷◌, [], length, IfOk, IfErr, OnOk};
ghost use Rattle.bn_base.specs.Line.{IsInLine};
ghost use Rattle.bn_netlist_laws.specs.Sentences.{Sentence, lines_text};
ghost use Rattle.bn_netlist_laws.specs.Spelling.{Spelled};
ghost use Rattle.bn_netlist.specs.LineReading.{RefusesLine};
ghost use Rattle.bn_netlist.specs.NetText.{IsTextRefusal};
ghost use Rattle.bn_netlist.specs.Stages.{AreTaken, HasTaken, TakesTo};
ghost use Rattle.bn_netlist.specs.Pieces.{HasCome, IsFront, RefusesOn};
ghost use Rattle.bn_netlist.specs.declared.stage.Stage.{Stage};

use crate::from_wires::FromWires;
use crate::line_refusal::NetlistRefusal;
use crate::stage::Stage;
use bn_base::{Lines, NextLine};
use std::alloc::Global;

/// The greatest number of bytes of a line that are stored: no line of any form is longer.
pub const LONGEST_LINE: usize = 128;

/// A configuration text of which a prefix has been received, with no faulty line so far.
#[derive(Drop)]
pub(crate) struct Front {
    /// The state of reading after the complete lines.
    pub(crate) stage: Stage,
    /// The bytes after the last complete line.
    pub(crate) line: Vec<u8>,
}

impl Front {
    /// A text of which no byte has been received.
    pub(crate) fn new(alloc: Global) -> Result<Front, NetlistRefusal>
        ensures none { IfOk result (λ f. HasCome [] f.line.items f.stage) }
        ensures refused { IfErr result (λ r. r ≡ NetlistRefusal.NoMemory) }
    {
        let Ok(line) = Vec::with_capacity(alloc, LONGEST_LINE) else {
            return Err(NetlistRefusal::NoMemory);
        };
        Ok(Front {
            stage: Stage::Title,
            line,
        })
    }

    /// Takes the next piece of the text. A refusal holds for the text whatever follows the piece.
    pub(crate) fn push(self, alloc: Global, piece: &[u8]) -> Result<Front, NetlistRefusal>
        requires { IsFront self.line.items self.stage }
        ensures come { IfOk result (λ next. (text : List ℕ) → HasCome text self.line.items self.stage
            → HasCome (text ++ piece.now) next.line.items next.stage) }
        ensures refused { IfErr result (λ r. (text : List ℕ) → HasCome text self.line.items self.stage
            → RefusesOn (text ++ piece.now) r) }
    {
        let Front { stage, line } = self;
        let mut stage = stage;
        let mut line = line;
        let mut lines = Lines::new(piece);
        loop {
            match lines.next_line() {
                NextLine::Whole(end) => take_line(alloc, &mut stage, &mut line, end)?,
                NextLine::Cut(begin) => keep(&mut line, begin, stage.next_line())?,
                NextLine::End => return Ok(Front { stage, line }),
            }
        }
    }

    /// The configuration of a text that ends here.
    pub(crate) fn finish<C: FromWires>(self, alloc: Global) -> Result<C, NetlistRefusal>
        requires { IsFront self.line.items self.stage }
        ensures spelled { IfOk result (λ c. (text : List ℕ) → HasCome text self.line.items self.stage
            → Spelled (C.version c) (C.spelling c) text) }
        ensures refused { IfErr result (λ r. (text : List ℕ) → HasCome text self.line.items self.stage
            → IsTextRefusal text r) }
    {
        let Front { stage, line } = self;
        if !line.is_empty() {
            return Err(NetlistRefusal::Syntax {
                line: stage.next_line(),
            });
        }
        stage.finish(alloc)
    }
}

// Takes a line that has arrived in pieces, of which `end` is the last, and stores nothing of it. A line that has
// arrived whole is read in place.
fn take_line(
    alloc: Global,
    stage: &mut Stage,
    line: &mut Vec<u8>,
    end: &[u8],
) -> Result<(), NetlistRefusal>
    requires { HasTaken stage.old }
    ensures taken { OnOk result ((lines : List Sentence) → AreTaken lines stage.old
        → TakesTo lines (line.old.items ++ end.now) stage.new) }
    ensures cleared { OnOk result (line.new.items ≡ []) }
    ensures refused { IfErr result (λ r. (lines : List Sentence) → AreTaken lines stage.old
        → IsInLine (line.old.items ++ end.now) → (rest : List ℕ)
        → IsTextRefusal (lines_text lines ++ ((line.old.items ++ end.now) ++ 10 ∷ rest)) r) }
{
    if line.is_empty() {
        return stage.advance(alloc, end);
    }
    keep(line, end, stage.next_line())?;
    stage.advance(alloc, line.as_slice())?;
    line.clear();
    Ok(())
}

// Stores more bytes of the next line, which has this number. A line that is too long is malformed, however it
// continues.
fn keep(line: &mut Vec<u8>, more: &[u8], number: u64) -> Result<(), NetlistRefusal>
    ensures kept { OnOk result (line.new.items ≡ line.old.items ++ more.now) }
    ensures refused { IfErr result (λ r. (lines : List Sentence) (stage : Stage) → AreTaken lines stage
        → number ≡ length lines + 1 → IsInLine (line.old.items ++ more.now) → (rest : List ℕ)
        → IsTextRefusal (lines_text lines ++ ((line.old.items ++ more.now) ++ rest)) r) }
{
    if line.len().saturating_add(more.len()) > LONGEST_LINE {
        return Err(NetlistRefusal::Syntax { line: number });
    }
    let Ok(()) = line.extend_from_slice(more) else {
        return Err(NetlistRefusal::NoMemory);
    };
    Ok(())
}
