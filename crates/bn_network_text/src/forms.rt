//! The forms of lines.

ghost use Rattle.std.specs.Prelude.{◌≡◌, ◌≤◌, length, IfOk, IfSome, option_map};
ghost use Rattle.bn_netlist_laws.specs.Reading.{Takes};
ghost use Rattle.bn_network_text.specs.Saying.{port_taken, aim_taken, aims_taken, bar_taken, machine_taken, head_taken};
ghost use Rattle.bn_network_text.specs.Saying.{rotary_taken, entry_of, port_after, title_after, header_said, said};

use crate::entry::{Entry, Kind};
use crate::sentence::Sentence;
use bn_base::MOST_COUNT;
use bn_element::{HORIZONTAL, VERTICAL};
use bn_lists::NoMemory;
use bn_netlist::{Cursor, number_after};
use std::alloc::Global;

// The contents of a line, without its byte 10, if it has one of the forms.
#[tactic(auto, unfolding(crate::specs::Saying::said))]
pub(crate) fn said(alloc: Global, line: &[u8]) -> Result<Option<Sentence>, NoMemory>
    ensures { IfOk result (λ x. x ≡ said line.now) }
{
    if let Some(sentence) = header_said(line) {
        return Ok(Some(sentence));
    }
    match entry_of(alloc, line)? {
        Some(entry) => Ok(Some(Sentence::Module(entry))),
        None => Ok(None),
    }
}

// The contents of a line that is none of a module.
#[tactic(auto, unfolding(crate::specs::Saying::header_said))]
fn header_said(line: &[u8]) -> Option<Sentence>
    ensures { result ≡ header_said line.now }
{
    if let Some(title) = title_after(line, b"network 1") {
        return Some(title);
    }
    if let Some(count) = number_after(line, b"modules ") {
        return Some(Sentence::Count(count));
    }
    if let Some(port) = port_after(line, b"start ") {
        return Some(Sentence::Start(port));
    }
    if let Some(port) = port_after(line, b"end ") {
        return Some(Sentence::End(port));
    }
    let port = port_after(line, b"at ")?;
    Some(Sentence::At(port))
}

// The title, if the line is this word.
#[tactic(auto, unfolding(crate::specs::Saying::title_after))]
fn title_after(line: &[u8], word: &[u8]) -> Option<Sentence>
    ensures { result ≡ title_after word.now line.now }
{
    let mut cursor = Cursor::new(line);
    cursor.word(word)?;
    if !cursor.is_at_end() {
        return None;
    }
    Some(Sentence::Title)
}

// The port in a line that is this word and a port.
#[tactic(auto, unfolding(crate::specs::Saying::port_after))]
fn port_after(line: &[u8], word: &[u8]) -> Option<(u64, u64)>
    ensures { result ≡ port_after word.now line.now }
{
    let mut cursor = Cursor::new(line);
    cursor.word(word)?;
    let port = port(&mut cursor)?;
    if !cursor.is_at_end() {
        return None;
    }
    Some(port)
}

// The contents of a module's line.
#[tactic(auto, unfolding(crate::specs::Saying::entry_of))]
fn entry_of(alloc: Global, line: &[u8]) -> Result<Option<Entry>, NoMemory>
    ensures { IfOk result (λ x. x ≡ entry_of line.now) }
{
    let mut cursor = Cursor::new(line);
    let Some((number, kind)) = head(line, &mut cursor) else {
        return Ok(None);
    };
    match aims(alloc, &mut cursor)? {
        Some(targets) => Ok(Some(Entry {
            number,
            kind,
            targets,
        })),
        None => Ok(None),
    }
}

// The number of the module, and what it is.
#[tactic(auto, unfolding(crate::specs::Saying::head_taken))]
fn head<'a>(line: &'a [u8], cursor: &mut Cursor<'a>) -> Option<(u64, Kind)>
    requires { cursor.old ≡ line.now }
    ensures { Takes result cursor.new (head_taken line.now) }
{
    if let Some(head) = machine(cursor) {
        return Some(head);
    }
    *cursor = Cursor::new(line);
    rotary(cursor)
}

// A machine's line up to its state.
#[tactic(auto, unfolding(crate::specs::Saying::machine_taken))]
fn machine(cursor: &mut Cursor<'_>) -> Option<(u64, Kind)>
    ensures { Takes result cursor.new (machine_taken cursor.old) }
{
    cursor.word(b"m ")?;
    let number = cursor.number()?;
    cursor.word(b" ")?;
    let table = cursor.number()?;
    cursor.word(b" ")?;
    let state = cursor.number()?;
    Some((number, Kind::Machine { table, state }))
}

// A rotary element's line up to its bar.
#[tactic(auto, unfolding(crate::specs::Saying::rotary_taken))]
fn rotary(cursor: &mut Cursor<'_>) -> Option<(u64, Kind)>
    ensures { Takes result cursor.new (rotary_taken cursor.old) }
{
    cursor.word(b"e ")?;
    let number = cursor.number()?;
    cursor.word(b" ")?;
    let bar = bar(cursor)?;
    Some((number, Kind::Rotary { bar }))
}

// The letter of a bar.
#[tactic(auto, unfolding(crate::specs::Saying::bar_taken))]
fn bar(cursor: &mut Cursor<'_>) -> Option<u32>
    ensures { Takes result cursor.new (bar_taken cursor.old) }
{
    if cursor.word(b"H").is_some() {
        return Some(HORIZONTAL);
    }
    cursor.word(b"V")?;
    Some(VERTICAL)
}

// Where the output ports of a module lead, to the end of the line.
fn aims(alloc: Global, cursor: &mut Cursor<'_>) -> Result<Option<Vec<Option<(u64, u64)>>>, NoMemory>
    ensures aims { IfOk result (λ v. option_map (λ v. v.items) v ≡ aims_taken MOST_COUNT cursor.old) }
    ensures few { IfOk result (λ v. IfSome v (λ aims. length aims.items ≤ MOST_COUNT)) }
{
    let mut aims = Vec::new(alloc);
    for _ in 0..MOST_COUNT {
        if cursor.is_at_end() {
            return Ok(Some(aims));
        }
        let Some(next) = aim(cursor) else {
            return Ok(None);
        };
        aims.push(next)?;
    }
    if cursor.is_at_end() {
        return Ok(Some(aims));
    }
    Ok(None)
}

// Where an output port leads, after a space.
#[tactic(auto, unfolding(crate::specs::Saying::aim_taken))]
fn aim(cursor: &mut Cursor<'_>) -> Option<Option<(u64, u64)>>
    ensures { Takes result cursor.new (aim_taken cursor.old) }
{
    cursor.word(b" ")?;
    if cursor.word(b"-").is_some() {
        return Some(None);
    }
    let port = port(cursor)?;
    Some(Some(port))
}

// A port.
#[tactic(auto, unfolding(crate::specs::Saying::port_taken))]
fn port(cursor: &mut Cursor<'_>) -> Option<(u64, u64)>
    ensures { Takes result cursor.new (port_taken cursor.old) }
{
    let module = cursor.number()?;
    cursor.word(b".")?;
    let line = cursor.number()?;
    Some((module, line))
}
