//! What the lines of a text say.

ghost use Rattle.std.specs.Prelude.{◌≡◌, ◌<◌, ◌+◌, Some, length, None, MatchOption, nat_lt, ◌||◌};
ghost use Rattle.bn_network_text.specs.Faults.{said_at, is_title, count_by, start_in, end_in, place_in, entry_in};

use crate::entry::Entry;
use crate::sentence::Sentence;
use std::marker::Model;

// The number of lines before those of the modules.
pub(crate) const HEADER_LINES: u32 = 5;

// What the lines say, and whether bytes are left after them.
#[derive(Drop)]
pub(crate) struct Page {
    pub(crate) says: Vec<Option<Sentence>>,
    pub(crate) more: bool,
}

impl Model for Page {
    ghost use Rattle.bn_network_text.specs.Lines.{Page as Told};

    ghost Value = { Told };

    ghost view = { λ p. record { says = p.says.items; more = p.more } };
}

impl Page {
    // Whether anything follows so many lines.
    pub(crate) fn goes_on(&self, lines: u32) -> bool
        ensures { result ≡ (nat_lt lines (length self.now.says) || self.now.more) }
    {
        self.says.len() > lines as usize || self.more
    }

    // The contents of the line with this number, counted from 0.
    fn sentence(&self, number: usize) -> Option<&Sentence>
        ensures { MatchOption result (said_at self.now.says number ≡ None)
            (λ x. said_at self.now.says number ≡ Some x.now) }
    {
        if number >= self.says.len() {
            return None;
        }
        self.says[number].as_ref()
    }

    // Whether the first line is the title.
    pub(crate) fn has_title(&self) -> bool
        ensures { result ≡ is_title (said_at self.now.says 0) }
    {
        match self.sentence(0) {
            Some(Sentence::Title) => true,
            _ => false,
        }
    }

    // The number of modules.
    pub(crate) fn count(&self) -> Option<u64>
        ensures { result ≡ count_by (said_at self.now.says 1) }
    {
        match self.sentence(1) {
            Some(Sentence::Count(count)) => Some(*count),
            _ => None,
        }
    }

    // The start.
    pub(crate) fn start(&self) -> Option<(u64, u64)>
        ensures { result ≡ start_in self.now.says }
    {
        match self.sentence(2) {
            Some(Sentence::Start(port)) => Some(*port),
            _ => None,
        }
    }

    // The end.
    pub(crate) fn end(&self) -> Option<(u64, u64)>
        ensures { result ≡ end_in self.now.says }
    {
        match self.sentence(3) {
            Some(Sentence::End(port)) => Some(*port),
            _ => None,
        }
    }

    // The input port that the signal is about to enter.
    pub(crate) fn place(&self) -> Option<(u64, u64)>
        ensures { result ≡ place_in self.now.says }
    {
        match self.sentence(4) {
            Some(Sentence::At(port)) => Some(*port),
            _ => None,
        }
    }

    // The line of a module.
    pub(crate) fn entry(&self, number: u32) -> Option<&Entry>
        ensures { MatchOption result (entry_in self.now.says number ≡ None)
            (λ x. entry_in self.now.says number ≡ Some x.now) }
    {
        match self.sentence(number as usize + HEADER_LINES as usize) {
            Some(Sentence::Module(entry)) => Some(entry),
            _ => None,
        }
    }
}
