//! The states of a network's modules at the start.
ghost use Rattle.std.specs.Prelude.{◌≡◌, ◌+◌, ◌-◌, ◌^◌, ◌<◌, ◌≤◌, ◌++◌, length, IfOk, OnOk};
ghost use Rattle.bn_control.specs.Controlled.{IsWithinLimits};
ghost use Rattle.bn_network.specs.Controls.{symbol_count};
ghost use Rattle.bn_network.specs.Networks.{start_cells};
ghost use Rattle.bn_network.specs.Starts.{start_from, words_on};
ghost use Rattle.bn_network.specs.Limits.{AreSmall};
ghost use Rattle.bn_network_assembly.specs.Assembled.{limits_of};
ghost use Rattle.bn_network_assembly.specs.Starting.{start_state};

use crate::windows::Windows;
use crate::words::TapeSymbols;
use bn_base::MOST_COUNT;
use bn_lists::NoMemory;
use bn_network::MOST_SYMBOLS;
use bn_quad::QuadMachine;
use std::alloc::Global;

// The state of each module at the start: the control in its first state, the words on their tapes from cell 1 on, all
// other cells blank, and the heads at 0.
pub(crate) fn start_states(
    alloc: Global,
    machine: &QuadMachine,
    windows: &Windows,
    words: &TapeSymbols<'_>,
) -> Result<Vec<u32>, NoMemory>
    requires machine { IsWithinLimits machine.now }
    requires windows { AreSmall (limits_of windows.now) }
    ensures { IfOk result (λ v. v.items ≡ (start_from machine.now (limits_of windows.now)
        (words_on machine.now words.now.one.now words.now.two.now words.now.three.now)).states) }
{
    let mut states = Vec::new(alloc);
    states.push(0)?;
    push_cells(
        &mut states,
        machine.symbols(1),
        windows.left1,
        windows.right1,
        words.one,
    )?;
    push_cells(
        &mut states,
        machine.symbols(2),
        0,
        windows.right2,
        words.two,
    )?;
    push_cells(
        &mut states,
        machine.symbols(3),
        0,
        windows.right3,
        words.three,
    )?;
    Ok(states)
}

// Adds the states of a tape's cells, from `left` cells left of position 0 to `right` cells right of it.
fn push_cells(
    states: &mut Vec<u32>,
    symbols: u32,
    left: u32,
    right: u32,
    word: &[u32],
) -> Result<(), NoMemory>
    requires symbols { symbols ≤ MOST_SYMBOLS }
    requires left { left ≤ MOST_COUNT }
    requires right { right ≤ MOST_COUNT }
    ensures { OnOk result (states.new.items ≡ states.old.items ++ start_cells symbols left word.now right) }
{
    for cell in 0..left + right + 1 {
        states.push(start_state(symbols, left, cell, word))?;
    }
    Ok(())
}

// The state of a cell at the start; cells are counted from the first one, from 0.
fn start_state(symbols: u32, left: u32, cell: u32, word: &[u32]) -> u32
    ensures { result ≡ start_state symbols left word.now cell }
{
    if cell < left {
        return 0;
    }
    if cell == left {
        return symbols;
    }
    let letter = (cell - left - 1) as usize;
    if letter < word.len() { word[letter] } else { 0 }
}
