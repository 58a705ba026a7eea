//! Tapes in a window of cells.
ghost use Rattle.std.specs.Prelude.{◌≡◌, ◌↔◌, ◌≤◌, ◌<◌, ◌+◌, ◌-◌, ◌^◌, ◌++◌, length, replicate, IsSome, IfSome, IfOk};
ghost use Rattle.std.specs.Prelude.{OnOk, IfErr};
ghost use Rattle.bn_machine.specs.declared.tape.TheConstants.Tape.{GREATEST_SIDE};

use crate::quint::{Shift, Side};
use std::alloc::{AllocError, Global};
use std::marker::Model;

/// Why a tape could not be made.
#[derive(Clone, Copy, PartialEq, Eq, Debug)]
pub enum TapeRefusal {
    /// The word is longer than the right side; `needs` is its length.
    WordOutside { needs: u32 },
    /// Memory for the cells ran out.
    NoMemory,
}

/// A tape with the positions from `-left` to `right` and a head on one of them. Contracts see the two sides and the
/// infinite tape that it represents, which is blank outside the window.
#[derive(Drop)]
pub struct Tape {
    left: u32,
    right: u32,
    at: u32,
    cells: Vec<u32>,
}

impl Model for Tape {
    ghost use Rattle.bn_machine.specs.Window.{Windowed, windowed_code, window_of, IsStored};

    ghost Value = { Windowed };

    ghost coded = { windowed_code };

    ghost view = { λ t. window_of t.left t.right t.cells.items t.at };

    ghost invariant = { λ t. IsStored t.left t.right t.cells.items t.at };
}

impl Tape {
    ghost use Rattle.bn_machine.specs.Tape.{cell, scanned, write, shift};
    ghost use Rattle.bn_machine.specs.Window.{IsInside, IsWindowed, with_tape, new_window};
    ghost use Rattle.bn_machine.specs.TapeCalls.{IsTapeRefusal, IsShifted};

    /// The greatest number of cells on either side of position 0.
    pub const GREATEST_SIDE: u32 = 2_097_152;

    /// A tape with `left` cells left of position 0 and `right` cells right of it, the head at 0, the symbols of `word`
    /// from 1 on, and blanks elsewhere. The error is `WordOutside` exactly if the word is longer than `right`.
    pub fn try_new(alloc: Global, left: u32, right: u32, word: &[u32]) -> Result<Tape, TapeRefusal>
        requires left_side { left ≤ Self.GREATEST_SIDE }
        requires right_side { right ≤ Self.GREATEST_SIDE }
        requires few { length word.now < 2 ^ 32 }
        ensures made { IfOk result (λ t. t ≡ new_window left right word.now) }
        ensures fits { OnOk result (length word.now ≤ right) }
        ensures refused { IfErr result (IsTapeRefusal right word.now) }
    {
        if word.len() > right as usize {
            return Err(TapeRefusal::WordOutside {
                needs: word.len() as u32,
            });
        }
        let Ok(cells) = new_cells(alloc, left, right, word) else {
            return Err(TapeRefusal::NoMemory);
        };
        Ok(Tape {
            left,
            right,
            at: left,
            cells,
        })
    }

    /// The head's position.
    pub fn head(&self) -> i64
        ensures value { result ≡ self.now.tape.head }
        ensures valid { IsWindowed self.now }
    {
        i64::from(self.at) - i64::from(self.left)
    }

    /// The symbol at a position, or `None` exactly outside the window. The contract also states the tape's invariant.
    pub fn symbol(&self, position: i64) -> Option<u32>
        ensures inside { IsSome result ↔ IsInside self.now position }
        ensures value { IfSome result (λ s. s ≡ cell self.now.tape position) }
        ensures valid { IsWindowed self.now }
    {
        if position < -i64::from(self.left) || position > i64::from(self.right) {
            return None;
        }
        let index = (position + i64::from(self.left)) as usize;
        Some(self.cells[index])
    }

    /// The symbol under the head.
    pub fn scanned(&self) -> u32
        ensures { result ≡ scanned self.now.tape }
    {
        self.cells[self.at as usize]
    }

    /// Writes the symbol under the head.
    pub fn put(&mut self, symbol: u32)
        ensures { self.new ≡ with_tape self.old (write self.old.tape symbol) }
    {
        let at = self.at as usize;
        self.cells[at] = symbol;
    }

    /// Moves the head by the shift and returns `None`. If the head would leave the window, returns the side at which it
    /// would leave, and changes nothing.
    pub fn shift(&mut self, shift: Shift) -> Option<Side>
        ensures { IsShifted self.old shift result self.new }
    {
        match shift {
            Shift::Left if self.at == 0 => Some(Side::Left),
            Shift::Right if self.at == self.left + self.right => Some(Side::Right),
            Shift::Left => {
                self.at -= 1;
                None
            }
            Shift::Stay => None,
            Shift::Right => {
                self.at += 1;
                None
            }
        }
    }
}

// The cells of a new tape: blanks up to position 0, the word, and blanks to the right end.
fn new_cells(alloc: Global, left: u32, right: u32, word: &[u32]) -> Result<Vec<u32>, AllocError>
    requires left_side { left ≤ GREATEST_SIDE }
    requires right_side { right ≤ GREATEST_SIDE }
    requires fits { length word.now ≤ right }
    ensures { IfOk result (λ v. v.items ≡ replicate (left + 1) 0 ++ word.now ++ replicate (right - length word.now) 0) }
{
    let before = left as usize + 1;
    let all = before + right as usize;
    let mut cells = Vec::with_capacity(alloc, all)?;
    cells.resize(before, 0)?;
    cells.extend_from_slice(word)?;
    cells.resize(all, 0)?;
    Ok(cells)
}
