//! The content of a line of a script.

ghost use Rattle.std.specs.Prelude.{◌≡◌, ◌==◌, ◌≤◌, length, None, Some, MatchOption};
ghost use Rattle.std.specs.Option.{option_map};
ghost use Rattle.bn_netlist_laws.specs.Reading.{word_taken, number_after};
ghost use Rattle.bn_session.specs.Reading.{said, ordinal_after, label_after, name_after, label_len, condition_in};
ghost use Rattle.bn_session.specs.Reading.{named_in, breakpoint_in, breakpoint_after, sentence_in};

use crate::label::is_label;
use crate::port::named_after;
use bn_base::read_u64;
use bn_csv::is_state_name;

/// The content of a line of a script, before its names are looked up.
#[derive(Clone, Copy)]
pub(crate) enum Sentence<'a> {
    /// `step E`
    Step(u64),
    /// `back E`
    Back(u64),
    /// `go E`
    Go(u64),
    /// `rev E`
    Rev(u64),
    /// `break LABEL state NAME`
    BreakState {
        label: &'a [u8],
        name: &'a [u8],
    },
    /// `break LABEL element K`
    BreakElement {
        label: &'a [u8],
        element: u64,
    },
    /// `break LABEL line E.L`
    BreakLine {
        label: &'a [u8],
        element: u64,
        line: u32,
    },
    /// `drop LABEL`
    Drop(&'a [u8]),
    /// `view`
    View,
}

// The content of a line, without its byte 10; `None` exactly if it has none of the forms. Only the script for a
// machine's circuit names states, and only the script for another circuit names ports.
#[tactic(auto, unfolding(crate::specs::Reading::sentence_in))]
pub(crate) fn sentence_in(of_machine: bool, line: &[u8]) -> Option<Sentence<'_>>
    ensures { option_map said result ≡ sentence_in of_machine line.now }
{
    if let Some(count) = number_after(line, b"step ") {
        return Some(Sentence::Step(count));
    }
    if let Some(count) = number_after(line, b"back ") {
        return Some(Sentence::Back(count));
    }
    if let Some(count) = ordinal_after(line, b"go ") {
        return Some(Sentence::Go(count));
    }
    if let Some(count) = ordinal_after(line, b"rev ") {
        return Some(Sentence::Rev(count));
    }
    if let Some(label) = label_after(line, b"drop ") {
        return Some(Sentence::Drop(label));
    }
    if line == b"view".as_slice() {
        return Some(Sentence::View);
    }
    breakpoint_after(of_machine, line, b"break ")
}

// The breakpoint in a line that is this word, a label and a condition.
#[tactic(auto, unfolding(crate::specs::Reading::breakpoint_after, crate::specs::Reading::breakpoint_in))]
fn breakpoint_after<'a>(of_machine: bool, line: &'a [u8], word: &[u8]) -> Option<Sentence<'a>>
    ensures { option_map said result ≡ breakpoint_after of_machine word.now line.now }
{
    let words = behind(line, word)?;
    let (label, condition) = words.split_at(label_len(words));
    if !is_label(label) {
        return None;
    }
    condition_in(of_machine, label, condition)
}

// The breakpoint with this label and the condition after it.
#[tactic(auto, unfolding(crate::specs::Reading::condition_in))]
fn condition_in<'a>(of_machine: bool, label: &'a [u8], words: &'a [u8]) -> Option<Sentence<'a>>
    ensures { option_map said result ≡ condition_in of_machine label.now words.now }
{
    if let Some(named) = named_in(of_machine, label, words) {
        return Some(named);
    }
    let element = number_after(words, b" element ")?;
    Some(Sentence::BreakElement { label, element })
}

// The breakpoint with this label and the state or the port after it.
#[tactic(auto, unfolding(crate::specs::Reading::named_in))]
fn named_in<'a>(of_machine: bool, label: &'a [u8], words: &'a [u8]) -> Option<Sentence<'a>>
    ensures { option_map said result ≡ named_in of_machine label.now words.now }
{
    if of_machine {
        let name = name_after(words, b" state ")?;
        return Some(Sentence::BreakState { label, name });
    }
    let (element, line) = named_after(words, b" line ")?;
    Some(Sentence::BreakLine {
        label,
        element,
        line,
    })
}

// The number of ASCII letters and digits at the front.
fn label_len(bytes: &[u8]) -> usize
    ensures value { result ≡ label_len bytes.now }
    ensures within { result ≤ length bytes.now }
{
    bytes
        .iter()
        .take_while(|byte| byte.is_ascii_alphanumeric())
        .count()
}

// The label in a line that is this word and a label.
#[tactic(auto, unfolding(crate::specs::Reading::label_after))]
fn label_after<'a>(line: &'a [u8], word: &[u8]) -> Option<&'a [u8]>
    ensures { MatchOption result (label_after word.now line.now ≡ None)
        (λ label. label_after word.now line.now ≡ Some label.now) }
{
    let label = behind(line, word)?;
    if is_label(label) { Some(label) } else { None }
}

// The name in a line that is this word and the name of a state.
#[tactic(auto, unfolding(crate::specs::Reading::name_after))]
fn name_after<'a>(line: &'a [u8], word: &[u8]) -> Option<&'a [u8]>
    ensures { MatchOption result (name_after word.now line.now ≡ None)
        (λ name. name_after word.now line.now ≡ Some name.now) }
{
    let name = behind(line, word)?;
    if is_state_name(name) {
        Some(name)
    } else {
        None
    }
}

// The number in a line that is this word and a number of at least 1.
#[tactic(auto, unfolding(crate::specs::Reading::ordinal_after))]
fn ordinal_after(line: &[u8], word: &[u8]) -> Option<u64>
    ensures { result ≡ ordinal_after word.now line.now }
{
    let number = number_after(line, word)?;
    if number < 1 {
        return None;
    }
    Some(number)
}

// The number in a line that is this word and a number.
#[tactic(auto, unfolding(bn_netlist_laws::specs::Reading::number_after, bn_netlist_laws::specs::Reading::number_taken))]
fn number_after(line: &[u8], word: &[u8]) -> Option<u64>
    ensures { result ≡ number_after word.now line.now }
{
    let digits = behind(line, word)?;
    let Ok((number, end)) = read_u64(digits, 0) else {
        return None;
    };
    if end != digits.len() {
        return None;
    }
    Some(number)
}

// The rest of a line after this word at its front.
#[tactic(auto, using(crate::proofs::WordLemmas::words))]
pub(crate) fn behind<'a>(line: &'a [u8], word: &[u8]) -> Option<&'a [u8]>
    ensures { MatchOption result (word_taken word.now line.now ≡ None)
        (λ rest. word_taken word.now line.now ≡ Some rest.now) }
{
    line.strip_prefix(word)
}
