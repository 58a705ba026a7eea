//! The forms of lines: the contents of each, as numbers.

ghost use Rattle.std.specs.Prelude.{◌≡◌, is_some, option_map};
ghost use Rattle.bn_netlist_laws.specs.Sentences.{Title, title_text};
ghost use Rattle.bn_netlist_laws.specs.Reading.{element_of};
ghost use Rattle.bn_netlist_laws.specs.Reading.{number_after, named_after};
ghost use Rattle.bn_netlist_laws.specs.Saying.{title_said, version_said, column_of, sides_of};

use crate::bytes::Cursor;
use bn_netlist_laws::{ElementLine, Version};

// The version in the first line of a configuration text.
pub fn version_of(line: &[u8]) -> Option<Version>
    ensures { option_map Title result ≡ title_said line.now }
{
    if let Some(version) = title_of(line, b"rotary 1", Version::One) {
        return Some(version);
    }
    title_of(line, b"rotary 2", Version::Two)
}

// This version, if the line is its title.
fn title_of(line: &[u8], title: &[u8], version: Version) -> Option<Version>
    requires { title.now ≡ title_text version }
    ensures { option_map Title result ≡ version_said version line.now }
{
    let mut cursor = Cursor::new(line);
    cursor.word(title)?;
    if !cursor.is_at_end() {
        return None;
    }
    Some(version)
}

// The contents of the line of a column: the number of its top row, the number of its rows, and the state of its
// bottom.
#[tactic(auto, unfolding(bn_netlist_laws::specs::Saying::column_of))]
pub fn column_of(line: &[u8]) -> Option<(u64, u64, u32)>
    ensures { result ≡ column_of line.now }
{
    let mut cursor = Cursor::new(line);
    cursor.word(b"c ")?;
    let element = cursor.number()?;
    cursor.byte(b' ')?;
    let rows = cursor.number()?;
    cursor.byte(b' ')?;
    let state = cursor.bar()?;
    if !cursor.is_at_end() {
        return None;
    }
    Some((element, rows, state))
}

// The contents of the line of a row: where its east and its west output lead.
#[tactic(auto, unfolding(bn_netlist_laws::specs::Saying::sides_of))]
pub fn sides_of(line: &[u8]) -> Option<(Option<(u64, u32)>, Option<(u64, u32)>)>
    ensures { result ≡ sides_of line.now }
{
    let mut cursor = Cursor::new(line);
    cursor.byte(b'r')?;
    let east = cursor.target()?;
    let west = cursor.target()?;
    if !cursor.is_at_end() {
        return None;
    }
    Some((east, west))
}

// The contents of the line of an element.
#[tactic(auto, unfolding(bn_netlist_laws::specs::Reading::element_of))]
pub fn element_of(line: &[u8]) -> Option<ElementLine>
    ensures { result ≡ element_of line.now }
{
    let mut cursor = Cursor::new(line);
    cursor.word(b"e ")?;
    let number = cursor.number()?;
    cursor.byte(b' ')?;
    let state = cursor.bar()?;
    let targets = cursor.targets()?;
    if !cursor.is_at_end() {
        return None;
    }
    Some(ElementLine {
        number,
        state,
        targets,
    })
}

// The number in a line that is this word and a number.
#[tactic(auto, unfolding(bn_netlist_laws::specs::Reading::number_after))]
pub fn number_after(line: &[u8], word: &[u8]) -> Option<u64>
    ensures { result ≡ number_after word.now line.now }
{
    let mut cursor = Cursor::new(line);
    cursor.word(word)?;
    let number = cursor.number()?;
    if !cursor.is_at_end() {
        return None;
    }
    Some(number)
}

// The numbers in a line that is this word and a port of an element.
#[tactic(auto, unfolding(bn_netlist_laws::specs::Reading::named_after))]
pub fn named_after(line: &[u8], word: &[u8]) -> Option<(u64, u32)>
    ensures { result ≡ named_after word.now line.now }
{
    let mut cursor = Cursor::new(line);
    cursor.word(word)?;
    let named = cursor.line()?;
    if !cursor.is_at_end() {
        return None;
    }
    Some(named)
}
