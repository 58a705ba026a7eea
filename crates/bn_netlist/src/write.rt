//! Writing a configuration text.

ghost use Rattle.std.specs.Prelude.{◌≡◌, ◌<◌, ◌≤◌, ◌+◌, ◌^◌, ◌++◌, ◌∷◌, [], ℕ, List, length, IfOk, OnOk, decimal};
ghost use Rattle.std.specs.Prelude.{codes, slice_index, Option, MatchOption};
ghost use Rattle.bn_circuits.specs.Circuits.{target};
ghost use Rattle.bn_netlist_laws.specs.Sentences.{line_of_place, line_text, place_text, target_text, targets_text};
ghost use Rattle.bn_netlist_laws.specs.Spelling.{targets_of};
ghost use Rattle.bn_netlist_laws.specs.Sentences.{Sentence, Element, Column, Row, sentence_text, lines_text};
ghost use Rattle.bn_netlist_laws.specs.Sentences.{title_text, side_letters, bar_letters};
ghost use Rattle.bn_netlist_laws.specs.Spelling.{Admits, IsTextOf, IsWrittenAt, header_then, header_of};
ghost use Rattle.bn_netlist.specs.Writing.{IsPlaceIn, IsBehindRow, NextLine, Writes};

use crate::column_lines::column_rows;
use crate::cursor::Place;
use crate::line_buffer::{LineBuffer, ROOM};
use crate::spellable::Spellable;
use crate::write_to::write_config_to;
use bn_base::push_u64;
use bn_circuits::Line;
use bn_element::{EAST, HORIZONTAL, NORTH, SOUTH, WEST};
use bn_io::VecSink;
use bn_lists::NoMemory;
use bn_netlist_laws::Version;
use std::alloc::Global;

/// The one text of a configuration that its version admits. (This project's own profile.)
pub fn write_config<C: Spellable>(alloc: Global, config: &C) -> Result<Vec<u8>, NoMemory>
    requires { Admits (C.version config.now) (C.spelling config.now) }
    ensures { IfOk result (λ text. IsTextOf (C.version config.now) (C.spelling config.now) text.items) }
{
    let mut sink = VecSink::new(alloc);
    match write_config_to(alloc, &mut sink, config) {
        Ok(()) => Ok(sink.into_bytes()),
        Err(_) => Err(NoMemory),
    }
}

// Appends the six lines of the header.
pub(crate) fn push_header<C: Spellable>(text: &mut Vec<u8>, config: &C) -> Result<(), NoMemory>
    requires { Admits (C.version config.now) (C.spelling config.now) }
    ensures { OnOk result (text.new.items ≡ text.old.items
        ++ lines_text (header_then (header_of (C.version config.now) (C.spelling config.now)) [])) }
{
    push_title(text, config.version())?;
    push_counted(text, b"elements ", u64::from(config.len()))?;
    push_named(text, b"start ", config.start())?;
    push_named(text, b"end ", config.end())?;
    push_counted(text, b"steps ", config.steps())?;
    push_place(text, config.place())
}

// Appends the line at this place, and returns the place after it.
pub(crate) fn push_line<C: Spellable>(
    text: &mut Vec<u8>,
    config: &C,
    place: Place,
) -> Result<Place, NoMemory>
    requires admitted { Admits (C.version config.now) (C.spelling config.now) }
    requires within { IsPlaceIn (C.spelling config.now).elements place.element place.rows }
    ensures { IfOk result (λ next. (x : Sentence)
        × NextLine (C.version config.now) (C.spelling config.now) place.element place.rows next.element next.rows x
        × (text.new.items ≡ text.old.items ++ (sentence_text x ++ 10 ∷ []))) }
{
    if place.rows > 0 {
        push_row(text, config, place.element)?;
        return Ok(behind_row(place));
    }
    match rows_written(config, place.element) {
        None => {
            let state = config.bar(place.element);
            push_element(text, config, place.element, state)?;
            Ok(Place {
                element: place.element + 1,
                rows: 0,
            })
        }
        Some(rows) => {
            let state = config.bar(place.element + rows);
            push_column(text, place.element, rows, state)?;
            Ok(Place {
                element: place.element,
                rows,
            })
        }
    }
}

// The place after a row: the next row, or the element after the bottom.
fn behind_row(place: Place) -> Place
    requires some { 0 < place.rows }
    requires within { place.element + 2 < 2 ^ 32 }
    ensures { IsBehindRow place.element place.rows result.element result.rows }
{
    if place.rows == 1 {
        Place {
            element: place.element + 2,
            rows: 0,
        }
    } else {
        Place {
            element: place.element + 1,
            rows: place.rows - 1,
        }
    }
}

// The number of rows of the column that is written as one entry at this element, if one is.
fn rows_written<C: Spellable>(config: &C, element: u32) -> Option<u32>
    requires { Admits (C.version config.now) (C.spelling config.now) }
    ensures { MatchOption result
        ((k : ℕ) → IsWrittenAt (C.version config.now) (C.spelling config.now) element k → ⊥)
        (IsWrittenAt (C.version config.now) (C.spelling config.now) element) }
{
    match config.version() {
        Version::One => None,
        Version::Two => column_rows(config, element),
    }
}

// Appends the line of one element.
fn push_element<C: Spellable>(
    text: &mut Vec<u8>,
    config: &C,
    element: u32,
    state: u32,
) -> Result<(), NoMemory>
    requires there { element < (C.spelling config.now).elements }
    requires state { state < 2 }
    ensures { OnOk result (text.new.items ≡ text.old.items
        ++ (sentence_text (Element element state (targets_of (C.spelling config.now).wires element)) ++ 10 ∷ [])) }
{
    let mut line = LineBuffer::new();
    put_target(&mut line, config, element, WEST);
    put_target(&mut line, config, element, SOUTH);
    put_target(&mut line, config, element, EAST);
    put_target(&mut line, config, element, NORTH);
    line.put(bar_letter(state));
    line.put(b' ');
    line.put_number(u64::from(element));
    line.put(b' ');
    line.put(b'e');
    push(text, line.as_slice())
}

// Appends the line of a column.
fn push_column(text: &mut Vec<u8>, first: u32, rows: u32, state: u32) -> Result<(), NoMemory>
    requires state { state < 2 }
    ensures { OnOk result (text.new.items ≡ text.old.items ++ (sentence_text (Column first rows state) ++ 10 ∷ [])) }
{
    let mut line = LineBuffer::new();
    line.put(bar_letter(state));
    line.put(b' ');
    line.put_number(u64::from(rows));
    line.put(b' ');
    line.put_number(u64::from(first));
    line.put(b' ');
    line.put(b'c');
    push(text, line.as_slice())
}

// Appends the line of a row of a column.
fn push_row<C: Spellable>(text: &mut Vec<u8>, config: &C, element: u32) -> Result<(), NoMemory>
    requires { element < (C.spelling config.now).elements }
    ensures { OnOk result (text.new.items ≡ text.old.items
        ++ (sentence_text (Row (target (C.spelling config.now).wires (record { element = element; line = 1 }))
        (target (C.spelling config.now).wires (record { element = element; line = 3 }))) ++ 10 ∷ [])) }
{
    let mut line = LineBuffer::new();
    put_target(&mut line, config, element, WEST);
    put_target(&mut line, config, element, EAST);
    line.put(b'r');
    push(text, line.as_slice())
}

// Puts a space, and where one output leads, before the bytes written so far.
fn put_target<C: Spellable>(line: &mut LineBuffer, config: &C, element: u32, output: u32)
    requires there { element < (C.spelling config.now).elements }
    requires output { output < 4 }
    requires room { length line.old + 23 ≤ ROOM }
    ensures text { line.new ≡ codes " "
        ++ (target_text (target (C.spelling config.now).wires (record { element = element; line = output }))
        ++ line.old) }
    ensures short { length line.new ≤ length line.old + 23 }
{
    match config.target(Line {
        element,
        line: output,
    }) {
        None => line.put(b'-'),
        Some(to) => {
            line.put(side_letter(to.line));
            line.put(b'.');
            line.put_number(u64::from(to.element));
        }
    }
    line.put(b' ');
}

// The letter of a port of an element.
fn side_letter(line: u32) -> u8
    requires { line < 4 }
    ensures { result ≡ slice_index side_letters line }
{
    match line {
        NORTH => b'n',
        EAST => b'e',
        SOUTH => b's',
        _ => b'w',
    }
}

// The letter of the state of a bar.
fn bar_letter(state: u32) -> u8
    requires { state < 2 }
    ensures { result ≡ slice_index bar_letters state }
{
    if state == HORIZONTAL { b'H' } else { b'V' }
}

// Appends the first line.
fn push_title(text: &mut Vec<u8>, version: Version) -> Result<(), NoMemory>
    ensures { OnOk result (text.new.items ≡ text.old.items ++ (title_text version ++ 10 ∷ [])) }
{
    match version {
        Version::One => push(text, b"rotary 1\n"),
        Version::Two => push(text, b"rotary 2\n"),
    }
}

// Appends where the signal is.
fn push_place(text: &mut Vec<u8>, place: bn_circuits::Place) -> Result<(), NoMemory>
    requires { (line_of_place place).line < 4 }
    ensures { OnOk result (text.new.items ≡ text.old.items ++ (place_text place ++ 10 ∷ [])) }
{
    match place {
        bn_circuits::Place::Enter { element, line } => push_named(
            text,
            b"at ",
            Line { element, line },
        ),
        bn_circuits::Place::Left { element, line } => push_named(
            text,
            b"left ",
            Line { element, line },
        ),
    }
}

// Appends a line that is a word and a number.
fn push_counted(text: &mut Vec<u8>, word: &[u8], number: u64) -> Result<(), NoMemory>
    ensures { OnOk result (text.new.items ≡ text.old.items
        ++ ((word.now ++ decimal number) ++ 10 ∷ [])) }
{
    push(text, word)?;
    push_number(text, number)?;
    push(text, b"\n")
}

// Appends a line that is a word and a port of an element.
fn push_named(text: &mut Vec<u8>, word: &[u8], line: Line) -> Result<(), NoMemory>
    requires { line.line < 4 }
    ensures { OnOk result (text.new.items ≡ text.old.items
        ++ ((word.now ++ line_text line) ++ 10 ∷ [])) }
{
    push(text, word)?;
    push_line_of(text, line)?;
    push(text, b"\n")
}

// Appends a port of an element.
fn push_line_of(text: &mut Vec<u8>, line: Line) -> Result<(), NoMemory>
    requires { line.line < 4 }
    ensures { OnOk result (text.new.items ≡ text.old.items ++ line_text line) }
{
    push_number(text, u64::from(line.element))?;
    push(text, &[b'.', side_letter(line.line)])
}

// Appends a number.
fn push_number(text: &mut Vec<u8>, number: u64) -> Result<(), NoMemory>
    ensures { OnOk result (text.new.items ≡ text.old.items ++ decimal number) }
{
    push_u64(text, number)?;
    Ok(())
}

// Appends some bytes.
fn push(text: &mut Vec<u8>, bytes: &[u8]) -> Result<(), NoMemory>
    ensures { OnOk result (text.new.items ≡ text.old.items ++ bytes.now) }
{
    text.extend_from_slice(bytes)?;
    Ok(())
}
