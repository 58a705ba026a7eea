//! Parsing the parts of a line of a text, from left to right.

ghost use Rattle.std.specs.Prelude.{◌≡◌, ◌==◌, None, Some, [], ◌∷◌, length, MatchOption, IfNone};
ghost use Rattle.bn_netlist_laws.specs.Reading.{Takes, word_taken, number_taken, side_taken, bar_taken, line_taken};
ghost use Rattle.bn_netlist_laws.specs.Reading.{target_taken, targets_taken};

use bn_base::read_u64;
use bn_element::{EAST, HORIZONTAL, NORTH, SOUTH, VERTICAL, WEST};
use std::marker::Model;

/// A position in a text, read from left to right. Contracts see it as the bytes that are left.
#[derive(Drop)]
pub struct Cursor<'a> {
    rest: &'a [u8],
}

impl<'a> Model for Cursor<'a> {
    ghost use Rattle.std.specs.Prelude.{ℕ, List};

    ghost Value = { List ℕ };

    ghost view = { λ c. c.rest.now };
}

impl<'a> Cursor<'a> {
    /// The position before these bytes.
    pub fn new(bytes: &[u8]) -> Cursor<'_>
        ensures { result ≡ bytes.now }
    {
        Cursor { rest: bytes }
    }

    /// Whether no byte is left.
    pub fn is_at_end(&self) -> bool
        ensures { result ≡ (length self.now == 0) }
    {
        self.rest.is_empty()
    }

    /// Skips this word. If the bytes do not begin with the word, the position does not change.
    #[tactic(auto, using(crate::proofs::WordLemmas::words))]
    pub fn word(&mut self, word: &[u8]) -> Option<()>
        ensures taken { MatchOption result
            (word_taken word.now self.old ≡ None)
            (λ _. word_taken word.now self.old ≡ Some self.new) }
        ensures kept { IfNone result (self.new ≡ self.old) }
    {
        let Some(rest) = self.rest.strip_prefix(word) else {
            return None;
        };
        self.rest = rest;
        Some(())
    }

    /// Skips this byte. If the bytes do not begin with it, the position does not change.
    #[tactic(auto, unfolding(bn_netlist_laws::specs::Reading::word_taken))]
    #[inline(always)]
    pub(crate) fn byte(&mut self, byte: u8) -> Option<()>
        ensures taken { MatchOption result
            (word_taken (byte ∷ []) self.old ≡ None)
            (λ _. word_taken (byte ∷ []) self.old ≡ Some self.new) }
        ensures kept { IfNone result (self.new ≡ self.old) }
    {
        let (first, rest) = self.rest.split_first()?;
        if *first != byte {
            return None;
        }
        self.rest = rest;
        Some(())
    }

    /// Reads a number in decimal digits, at most 2^62. If the bytes do not begin with one, the position does not
    /// change.
    #[tactic(auto, unfolding(bn_netlist_laws::specs::Reading::number_taken))]
    #[inline(always)]
    pub fn number(&mut self) -> Option<u64>
        ensures taken { Takes result self.new (number_taken self.old) }
        ensures kept { IfNone result (self.new ≡ self.old) }
    {
        let Ok((value, behind)) = read_u64(self.rest, 0) else {
            return None;
        };
        self.rest = &self.rest[behind..];
        Some(value)
    }

    /// Reads the letter of a port of an element.
    #[tactic(auto, unfolding(bn_netlist_laws::specs::Reading::side_taken))]
    #[inline(always)]
    pub(crate) fn side(&mut self) -> Option<u32>
        ensures { Takes result self.new (side_taken self.old) }
    {
        let (letter, rest) = self.rest.split_first()?;
        let side = match *letter {
            b'n' => NORTH,
            b'e' => EAST,
            b's' => SOUTH,
            b'w' => WEST,
            _ => return None,
        };
        self.rest = rest;
        Some(side)
    }

    /// Reads the letter of the state of a bar.
    #[tactic(auto, unfolding(bn_netlist_laws::specs::Reading::bar_taken))]
    #[inline(always)]
    pub(crate) fn bar(&mut self) -> Option<u32>
        ensures { Takes result self.new (bar_taken self.old) }
    {
        let (letter, rest) = self.rest.split_first()?;
        let bar = match *letter {
            b'H' => HORIZONTAL,
            b'V' => VERTICAL,
            _ => return None,
        };
        self.rest = rest;
        Some(bar)
    }

    /// Reads a port of an element: the number of the element and that of the port.
    #[tactic(auto, unfolding(bn_netlist_laws::specs::Reading::line_taken))]
    #[inline(always)]
    pub(crate) fn line(&mut self) -> Option<(u64, u32)>
        ensures { Takes result self.new (line_taken self.old) }
    {
        let element = self.number()?;
        self.byte(b'.')?;
        let side = self.side()?;
        Some((element, side))
    }

    /// Reads where an output leads: `None` for a dash.
    #[tactic(auto, unfolding(bn_netlist_laws::specs::Reading::target_taken))]
    #[inline(always)]
    pub(crate) fn target(&mut self) -> Option<Option<(u64, u32)>>
        ensures { Takes result self.new (target_taken self.old) }
    {
        self.byte(b' ')?;
        if self.byte(b'-').is_some() {
            return Some(None);
        }
        let line = self.line()?;
        Some(Some(line))
    }

    /// Reads where the four outputs of an element lead.
    #[tactic(auto, unfolding(bn_netlist_laws::specs::Reading::targets_taken))]
    #[inline(always)]
    pub(crate) fn targets(&mut self) -> Option<[Option<(u64, u32)>; 4]>
        ensures { Takes result self.new (targets_taken self.old) }
    {
        let north = self.target()?;
        let east = self.target()?;
        let south = self.target()?;
        let west = self.target()?;
        Some([north, east, south, west])
    }
}
