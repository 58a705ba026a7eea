//! The text of a drive.

ghost use Rattle.std.specs.Prelude.{◌≡◌, length, IfOk};
ghost use Rattle.bn_circuits.specs.declared.line.Line.{Line};
ghost use Rattle.bn_circuits.specs.declared.place.Place.TheVariants.{Enter};
ghost use Rattle.bn_qtable.specs.Rows.{counts_of, table_of};
ghost use Rattle.bn_boards.specs.Builds.{Build, build_elements};
ghost use Rattle.bn_boards.specs.Layouts.{spelled_by};
ghost use Rattle.bn_reply_builds.specs.DriveText.{drive_text};
ghost use Rattle.bn_reply_builds.specs.Outcomes.{outcome_line};

use crate::{Outcome, TableNames, push_outcome, push_tapes};
use bn_board::{Board, Spelled};
use bn_lists::NoMemory;
use bn_reply::push_counted;
use std::alloc::Global;

/// The text of a drive that has reached the configuration of this circuit, whose cells show this, after this many steps
/// of the machine of quadruples.
pub(crate) fn text_of_drive(
    alloc: Global,
    names: &TableNames<'_>,
    board: &Board,
    shown: &Spelled,
    outcome: Outcome,
    quadruple_steps: u64,
) -> Result<Vec<u8>, NoMemory>
    requires states { names.now.machine.now.states ≡ length names.now.names.now.states }
    requires symbols { names.now.machine.now.symbols ≡ counts_of names.now.names.now }
    requires inside { (line : Line) → outcome ≡ Outcome.Inside line
        → board.now.config.place ≡ Enter line.element line.line }
    requires shown { shown.now ≡ spelled_by board.now.layout board.now.config.states }
    ensures { IfOk result (λ text. (f : Build) → f.layout ≡ board.now.layout
        → build_elements f ≡ length board.now.net.elements
        → text.items ≡ drive_text (table_of names.now.machine.now names.now.names.now) f
        (outcome_line (table_of names.now.machine.now names.now.names.now) outcome) quadruple_steps board.now.config) }
{
    let mut text = Vec::new(alloc);
    push_counted(&mut text, b"elements ", u64::from(board.len()))?;
    push_outcome(&mut text, names, outcome)?;
    push_counted(&mut text, b"steps ", board.steps())?;
    push_counted(&mut text, b"quadruple steps ", quadruple_steps)?;
    push_tapes(&mut text, names, shown)?;
    Ok(text)
}
