//! The bars of rotary elements, one bit each.

ghost use Rattle.std.specs.Prelude.{◌≡◌, ◌/◌, ℕ, ◌<◌, ◌≤◌, List, length, replicate, Some, IfOk, slice_get, slice_set};
ghost use Rattle.bn_packed.specs.Numbers.{line_of};
ghost use Rattle.bn_packed.specs.Bars.{AreBars, HasCrossed, HasCrossedBack, crossed_back, turned, word_of};

use crate::cells::{BLOCK, LINES, element_of, line_number, opposite};
use bn_circuits::Line;
use bn_element::VERTICAL;
use bn_lists::NoMemory;
use std::alloc::Global;
use std::marker::Model;

/// The bars of elements, 64 in a word: a bit is 1 if the bar lies along north and south. Each block of 1,024 elements
/// has 64 words, of which 16 are used. With this layout a shift and a mask compute the word of an element's bar from
/// the number of a port. Contracts see the list of states.
#[derive(Debug, Drop)]
pub(crate) struct Bars {
    count: usize,
    words: Vec<u64>,
}

impl Model for Bars {
    ghost use Rattle.std.specs.Prelude.{ℕ, ◌+◌, ◌*◌, ◌≤◌, List, length};
    ghost use Rattle.bn_packed.specs.Bars.{bars_of};

    ghost Value = { List ℕ };

    ghost view = { λ b. bars_of b.words.items b.count };

    ghost invariant = { λ b. b.count ≤ 16 * length b.words.items };
}

impl Bars {
    /// The bars in these states.
    pub(crate) fn of(alloc: Global, states: &[u32]) -> Result<Bars, NoMemory>
        requires { AreBars states.now }
        ensures { IfOk result (λ b. b ≡ states.now) }
    {
        let mut bars = Bars::horizontal(alloc, states.len())?;
        for element in 0..states.len() {
            bars.set(element, states[element]);
        }
        Ok(bars)
    }

    /// The states of the bars.
    pub(crate) fn to_states(&self, alloc: Global) -> Result<Vec<u32>, NoMemory>
        ensures { IfOk result (λ v. v.items ≡ self.now) }
    {
        let mut states = Vec::with_capacity(alloc, self.count)?;
        for element in 0..self.count {
            states.push(self.get(element))?;
        }
        Ok(states)
    }

    /// The state of an element's bar.
    pub(crate) fn get(&self, element: usize) -> u32
        requires { element < length self.now }
        ensures bar { slice_get self.now element ≡ Some result }
        ensures range { result < 2 }
    {
        ((self.words[word_of(element)] >> (element % 64)) & 1) as u32
    }

    /// Moves the signal across an element from the port with this number. Returns the number of the port across from
    /// the output port, which is the same number if the signal goes straight. If the signal comes across the bar, the
    /// bar turns, and the result is the number of a neighbouring port.
    #[tactic(auto, using(crate::proofs::CrossLemmas::crossings))]
    pub(crate) fn cross(&mut self, number: usize) -> usize
        requires { (line_of number).element < length self.old }
        ensures { HasCrossed self.old number self.new result }
    {
        let element = element_of(number);
        let is_east_or_west = number / BLOCK % 2 == 1;
        if self.get(element) == VERTICAL {
            if is_east_or_west {
                self.turn(element);
                number ^ (3 * BLOCK)
            } else {
                number
            }
        } else if is_east_or_west {
            number
        } else {
            self.turn(element);
            number ^ BLOCK
        }
    }

    /// Undoes the signal's crossing of an element, given the output port, and returns the port by which the signal
    /// entered.
    #[tactic(auto, using(crate::proofs::CrossLemmas::back_line))]
    pub(crate) fn cross_back(&mut self, element: u32, line: u32) -> u32
        requires element { element < length self.old }
        requires line { line < 4 }
        ensures { crossed_back self.old element line ≡ Some (self.new, result) }
    {
        let out = opposite(Line { element, line });
        let into = self.cross_back_at(line_number(out));
        (into / BLOCK % LINES) as u32
    }

    /// The same by numbers: from the number of the port across from the output port, returns the number of the port by
    /// which the signal entered.
    #[tactic(auto, using(crate::proofs::CrossLemmas::crossings_back))]
    pub(crate) fn cross_back_at(&mut self, number: usize) -> usize
        requires { (line_of number).element < length self.old }
        ensures { HasCrossedBack self.old number self.new result }
    {
        let element = element_of(number);
        let is_east_or_west = number / BLOCK % 2 == 1;
        if self.get(element) == VERTICAL {
            if is_east_or_west {
                self.turn(element);
                number ^ BLOCK
            } else {
                number
            }
        } else if is_east_or_west {
            number
        } else {
            self.turn(element);
            number ^ (3 * BLOCK)
        }
    }

    /// Sets an element's bar to this state.
    #[tactic(auto, using(crate::proofs::PutLemmas::put_same, crate::proofs::PutLemmas::put_turned))]
    pub(crate) fn put(&mut self, element: usize, state: u32)
        requires element { element < length self.old }
        requires state { state < 2 }
        ensures { self.new ≡ slice_set self.old element state }
    {
        if self.get(element) != state {
            self.turn(element);
        }
    }

    /// A copy of the bars.
    pub(crate) fn copy(&self, alloc: Global) -> Result<Bars, NoMemory>
        ensures { IfOk result (λ b. b ≡ self.now) }
    {
        let words = self.words.as_slice().to_vec(alloc)?;
        Ok(Bars {
            count: self.count,
            words,
        })
    }

    // This many bars along west and east. A block has 64 words, one for 16 elements.
    fn horizontal(alloc: Global, count: usize) -> Result<Bars, NoMemory>
        ensures { IfOk result (λ b. b ≡ replicate count 0) }
    {
        let words = vec![in alloc; 0; count.div_ceil(16)]?;
        Ok(Bars { count, words })
    }

    // Sets a bar that lies along west and east to this state.
    fn set(&mut self, element: usize, state: u32)
        requires bar { slice_get self.old element ≡ Some 0 }
        requires state { state < 2 }
        ensures { self.new ≡ slice_set self.old element state }
    {
        if state == VERTICAL {
            self.turn(element);
        }
    }

    // Turns an element's bar.
    fn turn(&mut self, element: usize)
        requires { element < length self.old }
        ensures { turned self.old element ≡ Some self.new }
    {
        self.words[word_of(element)] ^= 1 << (element % 64);
    }
}

// The index of the word of an element's bar.
fn word_of(element: usize) -> usize
    ensures { result ≡ word_of element }
{
    64 * (element / BLOCK) + element % BLOCK / 64
}
