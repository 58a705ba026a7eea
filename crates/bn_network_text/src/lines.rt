//! Reading the lines of a text.

ghost use Rattle.std.specs.Prelude.{IfOk};
ghost use Rattle.bn_network_text.specs.Lines.{IsPage};

use crate::forms::said;
use crate::page::Page;
use bn_base::{Lines, NextLine};
use bn_lists::NoMemory;
use std::alloc::Global;

// The most lines of a text: those of the header, and one for each module.
const MOST_LINES: u32 = 65_541;

// What the lines of a text say.
pub(crate) fn read_page(alloc: Global, text: &[u8]) -> Result<Page, NoMemory>
    ensures { IfOk result (IsPage text.now) }
{
    let mut lines = Lines::new(text);
    let mut says = Vec::new(alloc);
    for _ in 0..MOST_LINES {
        match lines.next_line() {
            NextLine::Whole(line) => says.push(said(alloc, line)?)?,
            NextLine::Cut(_) => return Ok(Page { says, more: true }),
            NextLine::End => return Ok(Page { says, more: false }),
        }
    }
    let more = match lines.next_line() {
        NextLine::End => false,
        _ => true,
    };
    Ok(Page { says, more })
}
