//! The text of a circuit's layout.

ghost use Rattle.std.specs.Prelude.{◌≡◌, ◌++◌, IfOk, OnOk};
ghost use Rattle.bn_bennett_laws.specs.List.{symbols_of};
ghost use Rattle.bn_bennett.specs.Translation.{IsTranslation};
ghost use Rattle.bn_network.specs.Limits.{AreSmall};
ghost use Rattle.bn_network_assembly.specs.Assembled.{limits_of};
ghost use Rattle.bn_boards.specs.Flats.{Flat};
ghost use Rattle.bn_reply_layout.specs.CellText.{tape_lines};
ghost use Rattle.bn_reply_layout.specs.LayoutText.{layout_text};
ghost use Rattle.bn_reply_layout.specs.Made.{HasFewStates, HasNumbers};

use crate::cell_text::push_tape;
use crate::control_text::{push_columns, push_control_lines};
use crate::module_text::push_modules;
use crate::sizes::{history_of, letters_of};
use bn_bennett::{Translated, names};
use bn_control::state_names;
use bn_lists::NoMemory;
use bn_network_assembly::Windows;
use bn_table::Table;
use std::alloc::Global;

/// The text of the layout of the circuit of a table's translation in a window.
pub(crate) fn layout_text(
    alloc: Global,
    table: &Table,
    translated: &Translated,
    windows: &Windows,
) -> Result<Vec<u8>, NoMemory>
    requires translation { IsTranslation table.now.machine translated.now }
    requires small { AreSmall (limits_of windows.now) }
    requires few { HasFewStates translated.now }
    ensures { IfOk result (λ text. (f : Flat) → HasNumbers f translated.now (limits_of windows.now)
        → text.items ≡ layout_text table.now f.translation f.layout f.names) }
{
    let (letters, history) = (letters_of(table), history_of(table));
    let names = names(alloc, table, translated)?;
    let states = state_names(alloc, translated.machine().machine())?;
    let mut text = Vec::new(alloc);
    push_modules(&mut text, windows, letters, history, states.len() as u64)?;
    push_columns(&mut text, &names, states.as_slice())?;
    push_control_lines(&mut text, table)?;
    push_tapes(&mut text, table)?;
    Ok(text)
}

// Appends the lines on the cells of the three tapes.
fn push_tapes(text: &mut Vec<u8>, table: &Table) -> Result<(), NoMemory>
    ensures { OnOk result (text.new.items ≡ text.old.items ++ tape_lines table.now (symbols_of table.now.machine)) }
{
    let (letters, history) = (letters_of(table), history_of(table));
    push_tape(text, table, 1, letters)?;
    push_tape(text, table, 2, history)?;
    push_tape(text, table, 3, letters)
}
