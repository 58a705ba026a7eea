//! The one reader of a command line: the number of arguments and the name of the command tell the forms apart.

ghost use Rattle.std.specs.Prelude.{◌≢◌, ◌∷◌, [], codes, map, option_map, MatchOption};
ghost use Rattle.std.specs.String.{string_bytes};
ghost use Rattle.bn_behaviour.specs.PortNames.{port_names_of};
ghost use Rattle.bn_words.specs.Requests.{HasForm, HasNoForm, port_arguments, request_of};
ghost use Rattle.bn_words.specs.Words.{AreRead};

use crate::request::{ConfigurationRequest, Request, WholeRequest};
use crate::word::{
    count_of, drive_steps_of, letters_of, number_from_one, number_of, port_names, tape_word,
    window_of,
};
use bn_base::{GREATEST, MOST_COUNT};
use bn_behaviour::{MOST_STATES, PortNames};
use bn_gen::MOST_INCREMENTS;
use bn_qtable::TapeWords;
use bn_rlem::MOST_LINES;

/// What the arguments of a command line ask for; `None` exactly if no allowed request has these arguments.
pub fn read_words(words: &[String]) -> Option<Request<'_>>
    ensures { MatchOption result (HasNoForm (map string_bytes words.now))
        (λ request. HasForm (map string_bytes words.now) (request_of request)) }
{
    match words {
        [name] => read_name(name.as_str()),
        [name, number] => read_number(name.as_str(), number.as_str()),
        [name, first, second] => read_pair(name.as_str(), first.as_str(), second.as_str()),
        [name, first, second, third, fourth] => read_four(
            name.as_str(),
            first.as_str(),
            second.as_str(),
            third.as_str(),
            fourth.as_str(),
        ),
        [name, word, left, right, steps, output] => read_window(
            name.as_str(),
            word.as_str(),
            left.as_str(),
            right.as_str(),
            steps.as_str(),
            output.as_str(),
        ),
        [name, word, left, right, steps, output, most_steps] => read_window_and_steps(
            name.as_str(),
            word.as_str(),
            left.as_str(),
            right.as_str(),
            steps.as_str(),
            output.as_str(),
            most_steps.as_str(),
        ),
        [name, first, second, third, left, right, steps, output] => read_three_and_window(
            name.as_str(),
            first.as_str(),
            second.as_str(),
            third.as_str(),
            left.as_str(),
            right.as_str(),
            steps.as_str(),
            output.as_str(),
        ),
        [
            name,
            first,
            second,
            third,
            left,
            right,
            steps,
            output,
            most_steps,
        ] => {
            read_three_window_and_steps(
                name.as_str(),
                first.as_str(),
                second.as_str(),
                third.as_str(),
                left.as_str(),
                right.as_str(),
                steps.as_str(),
                output.as_str(),
                most_steps.as_str(),
            )
        }
        _ => None,
    }
}

// The forms of a name alone.
fn read_name(name: &str) -> Option<Request<'_>>
    ensures { AreRead (name.now ∷ []) result }
{
    match name {
        "check" => Some(Request::OnWhole(WholeRequest::Check)),
        "reversible" => Some(Request::OnWhole(WholeRequest::Reversible)),
        "inverse" => Some(Request::OnWhole(WholeRequest::Inverse)),
        "bennett" => Some(Request::OnWhole(WholeRequest::Bennett)),
        "standard" => Some(Request::OnWhole(WholeRequest::Standard)),
        "plan" => Some(Request::OnConfiguration(ConfigurationRequest::Plan)),
        "migrate" => Some(Request::OnConfiguration(ConfigurationRequest::Migrate)),
        "mirror" => Some(Request::OnConfiguration(ConfigurationRequest::Mirror)),
        "farm" => Some(Request::OnWhole(WholeRequest::Farm)),
        "erase" => Some(Request::OnWhole(WholeRequest::Erase)),
        "walk" => Some(Request::OnWhole(WholeRequest::Walk)),
        _ => None,
    }
}

// The forms of a name and a number.
fn read_number<'a>(name: &str, number: &'a str) -> Option<Request<'a>>
    ensures { AreRead (name.now ∷ number.now ∷ []) result }
{
    let number = number_of(number)?;
    match name {
        "step" => Some(Request::OnConfiguration(ConfigurationRequest::Step { most_steps: number })),
        "back" => Some(Request::OnConfiguration(ConfigurationRequest::Back { most_steps: number })),
        "generate" => {
            if number < 1 || number > MOST_INCREMENTS as u64 {
                return None;
            }
            Some(Request::Generate {
                increments: number as u32,
            })
        }
        _ => None,
    }
}

// The forms of a name and two arguments.
fn read_pair<'a>(name: &str, first: &'a str, second: &str) -> Option<Request<'a>>
    ensures { AreRead (name.now ∷ first.now ∷ second.now ∷ []) result }
{
    match name {
        "realise" => read_realise(first, second),
        "equal" => read_equal(first, second),
        "run" => read_auto(first, second),
        "element" => read_element(first, second),
        "behaviour" => read_behaviour(first, second, None),
        "crossings" => read_crossings(first, second, None),
        "room" => read_room(first, second),
        _ => read_word_and_count(name, first, second),
    }
}

// The form of `run` with the automatic window.
fn read_auto<'a>(first: &'a str, second: &str) -> Option<Request<'a>>
    ensures { AreRead (codes "run" ∷ first.now ∷ second.now ∷ []) result }
{
    let word = letters_of(first)?;
    match second {
        "auto" => Some(Request::OnWhole(WholeRequest::RunAuto { word })),
        _ => None,
    }
}

// The forms of a name, letters and a greatest number of steps.
fn read_word_and_count<'a>(name: &str, first: &'a str, second: &str) -> Option<Request<'a>>
    requires realise { name.now ≢ codes "realise" }
    requires equal { name.now ≢ codes "equal" }
    requires run { name.now ≢ codes "run" }
    requires element { name.now ≢ codes "element" }
    requires behaviour { name.now ≢ codes "behaviour" }
    requires crossings { name.now ≢ codes "crossings" }
    requires room { name.now ≢ codes "room" }
    ensures { AreRead (name.now ∷ first.now ∷ second.now ∷ []) result }
{
    let word = letters_of(first)?;
    let most_steps = count_of(second)?;
    match name {
        "machine" => Some(Request::OnWhole(WholeRequest::Machine { word, most_steps })),
        "trace" => Some(Request::OnWhole(WholeRequest::Trace { word, most_steps })),
        "moments" => Some(Request::OnWhole(WholeRequest::Moments { word, most_steps })),
        "erase" => Some(Request::OnWhole(WholeRequest::EraseRun { word, most_steps })),
        "window" => Some(Request::OnWhole(WholeRequest::Window { word, most_steps })),
        _ => None,
    }
}

// The form of `room` with a word on tape 1.
fn read_room<'a>(word: &'a str, most_steps: &str) -> Option<Request<'a>>
    ensures { AreRead (codes "room" ∷ word.now ∷ most_steps.now ∷ []) result }
{
    let words = TapeWords::One(tape_word(word)?);
    let most_steps = count_of(most_steps)?;
    Some(Request::OnWhole(WholeRequest::Room { words, most_steps }))
}

// The form of `realise`.
fn read_realise<'a>(first: &'a str, second: &str) -> Option<Request<'a>>
    ensures { AreRead (codes "realise" ∷ first.now ∷ second.now ∷ []) result }
{
    let state = number_from_one(first, MOST_COUNT)? as u32;
    let line = number_from_one(second, MOST_COUNT)? as u32;
    Some(Request::OnWhole(WholeRequest::Realise { state, line }))
}

// The form of `equal`.
fn read_equal<'a>(first: &'a str, second: &str) -> Option<Request<'a>>
    ensures { AreRead (codes "equal" ∷ first.now ∷ second.now ∷ []) result }
{
    let state = number_from_one(first, MOST_COUNT)? as u32;
    let other = number_from_one(second, MOST_COUNT)? as u32;
    Some(Request::OnWhole(WholeRequest::Equal { state, other }))
}

// The form of `element`.
fn read_element<'a>(first: &'a str, second: &str) -> Option<Request<'a>>
    ensures { AreRead (codes "element" ∷ first.now ∷ second.now ∷ []) result }
{
    let lines = number_from_one(first, MOST_LINES as u64)? as u32;
    let number = number_of(second)?;
    Some(Request::Element { lines, number })
}

// The forms of `behaviour`.
fn read_behaviour<'a>(
    states: &str,
    steps: &str,
    names: Option<PortNames<'a>>,
) -> Option<Request<'a>>
    ensures { AreRead (codes "behaviour" ∷ states.now ∷ steps.now
        ∷ port_arguments (option_map port_names_of names.entry)) result }
{
    let most_states = number_from_one(states, MOST_STATES as u64)? as u32;
    let most_steps = number_from_one(steps, GREATEST)?;
    Some(Request::OnConfiguration(ConfigurationRequest::Behaviour {
        most_states,
        most_steps,
        names,
    }))
}

// The forms of `crossings`.
fn read_crossings<'a>(
    states: &str,
    steps: &str,
    names: Option<PortNames<'a>>,
) -> Option<Request<'a>>
    ensures { AreRead (codes "crossings" ∷ states.now ∷ steps.now
        ∷ port_arguments (option_map port_names_of names.entry)) result }
{
    let most_states = number_from_one(states, MOST_STATES as u64)? as u32;
    let most_steps = number_from_one(steps, GREATEST)?;
    Some(Request::OnConfiguration(ConfigurationRequest::Crossings {
        most_states,
        most_steps,
        names,
    }))
}

// The forms of a name and four arguments.
fn read_four<'a>(
    name: &str,
    first: &'a str,
    second: &'a str,
    third: &'a str,
    fourth: &'a str,
) -> Option<Request<'a>>
    ensures { AreRead (name.now ∷ first.now ∷ second.now ∷ third.now ∷ fourth.now ∷ []) result }
{
    match name {
        "moments" => read_three_moments(first, second, third, fourth),
        "room" => read_three_room(first, second, third, fourth),
        "behaviour" => read_behaviour(first, second, Some(port_names(third, fourth)?)),
        "crossings" => read_crossings(first, second, Some(port_names(third, fourth)?)),
        _ => None,
    }
}

// The form of `moments` with a word on each tape.
fn read_three_moments<'a>(
    first: &'a str,
    second: &'a str,
    third: &'a str,
    most_steps: &str,
) -> Option<Request<'a>>
    ensures { AreRead (codes "moments" ∷ first.now ∷ second.now ∷ third.now ∷ most_steps.now ∷ []) result }
{
    let first = letters_of(first)?;
    let second = letters_of(second)?;
    let third = letters_of(third)?;
    let most_steps = count_of(most_steps)?;
    Some(Request::OnWhole(WholeRequest::ThreeMoments {
        first,
        second,
        third,
        most_steps,
    }))
}

// The form of `room` with a word on each tape.
fn read_three_room<'a>(
    first: &'a str,
    second: &'a str,
    third: &'a str,
    most_steps: &str,
) -> Option<Request<'a>>
    ensures { AreRead (codes "room" ∷ first.now ∷ second.now ∷ third.now ∷ most_steps.now ∷ []) result }
{
    let words = TapeWords::Three(tape_word(first)?, tape_word(second)?, tape_word(third)?);
    let most_steps = count_of(most_steps)?;
    Some(Request::OnWhole(WholeRequest::Room { words, most_steps }))
}

// The forms of a name, a word and a window.
fn read_window<'a>(
    name: &str,
    word: &'a str,
    left: &str,
    right: &str,
    steps: &str,
    output: &str,
) -> Option<Request<'a>>
    ensures { AreRead (name.now ∷ word.now ∷ left.now ∷ right.now ∷ steps.now ∷ output.now ∷ []) result }
{
    match name {
        "build" => read_build(word, left, right, steps, output),
        "play" => read_play(word, left, right, steps, output),
        _ => read_letters_and_window(name, word, left, right, steps, output),
    }
}

// The form of `build` with a word on tape 1.
fn read_build<'a>(
    word: &'a str,
    left: &str,
    right: &str,
    steps: &str,
    output: &str,
) -> Option<Request<'a>>
    ensures { AreRead (codes "build" ∷ word.now ∷ left.now ∷ right.now ∷ steps.now ∷ output.now ∷ []) result }
{
    let words = TapeWords::One(tape_word(word)?);
    let window = window_of(left, right, steps, output)?;
    Some(Request::OnWhole(WholeRequest::Build { words, window }))
}

// The form of `play` with a word on tape 1.
fn read_play<'a>(
    word: &'a str,
    left: &str,
    right: &str,
    steps: &str,
    output: &str,
) -> Option<Request<'a>>
    ensures { AreRead (codes "play" ∷ word.now ∷ left.now ∷ right.now ∷ steps.now ∷ output.now ∷ []) result }
{
    let words = TapeWords::One(tape_word(word)?);
    let window = window_of(left, right, steps, output)?;
    Some(Request::OnWhole(WholeRequest::Play { words, window }))
}

// The forms of a name, letters and a window.
fn read_letters_and_window<'a>(
    name: &str,
    word: &'a str,
    left: &str,
    right: &str,
    steps: &str,
    output: &str,
) -> Option<Request<'a>>
    requires build { name.now ≢ codes "build" }
    requires play { name.now ≢ codes "play" }
    ensures { AreRead (name.now ∷ word.now ∷ left.now ∷ right.now ∷ steps.now ∷ output.now ∷ []) result }
{
    let word = letters_of(word)?;
    let window = window_of(left, right, steps, output)?;
    match name {
        "compile" => Some(Request::OnWhole(WholeRequest::Compile { word, window })),
        "layout" => Some(Request::OnWhole(WholeRequest::Layout { word, window })),
        "run" => Some(Request::OnWhole(WholeRequest::Run {
            word,
            window,
            most_steps: None,
        })),
        "session" => Some(Request::OnWhole(WholeRequest::Session { word, window })),
        _ => None,
    }
}

// The forms of a name, a word, a window and a number.
fn read_window_and_steps<'a>(
    name: &str,
    word: &'a str,
    left: &str,
    right: &str,
    steps: &str,
    output: &str,
    most_steps: &str,
) -> Option<Request<'a>>
    ensures { AreRead (name.now ∷ word.now ∷ left.now ∷ right.now ∷ steps.now ∷ output.now ∷ most_steps.now ∷ [])
        result }
{
    match name {
        "drive" => read_drive(word, left, right, steps, output, most_steps),
        "look" => read_look(word, left, right, steps, output, most_steps),
        _ => read_letters_window_and_steps(name, word, left, right, steps, output, most_steps),
    }
}

// The form of `drive` with a word on tape 1.
fn read_drive<'a>(
    word: &'a str,
    left: &str,
    right: &str,
    steps: &str,
    output: &str,
    most_steps: &str,
) -> Option<Request<'a>>
    ensures { AreRead (codes "drive" ∷ word.now ∷ left.now ∷ right.now ∷ steps.now ∷ output.now ∷ most_steps.now ∷ [])
        result }
{
    let words = TapeWords::One(tape_word(word)?);
    let window = window_of(left, right, steps, output)?;
    let most_steps = drive_steps_of(most_steps)?;
    Some(Request::OnWhole(WholeRequest::Drive {
        words,
        window,
        most_steps,
    }))
}

// The form of `look` with a word on tape 1.
fn read_look<'a>(
    word: &'a str,
    left: &str,
    right: &str,
    steps: &str,
    output: &str,
    most_steps: &str,
) -> Option<Request<'a>>
    ensures { AreRead (codes "look" ∷ word.now ∷ left.now ∷ right.now ∷ steps.now ∷ output.now ∷ most_steps.now ∷ [])
        result }
{
    let words = TapeWords::One(tape_word(word)?);
    let window = window_of(left, right, steps, output)?;
    let most_steps = number_of(most_steps)?;
    Some(Request::OnWhole(WholeRequest::Look {
        words,
        window,
        most_steps,
    }))
}

// The forms of a name, letters, a window and a number.
fn read_letters_window_and_steps<'a>(
    name: &str,
    word: &'a str,
    left: &str,
    right: &str,
    steps: &str,
    output: &str,
    most_steps: &str,
) -> Option<Request<'a>>
    requires drive { name.now ≢ codes "drive" }
    requires look { name.now ≢ codes "look" }
    ensures { AreRead (name.now ∷ word.now ∷ left.now ∷ right.now ∷ steps.now ∷ output.now ∷ most_steps.now ∷ [])
        result }
{
    let word = letters_of(word)?;
    let window = window_of(left, right, steps, output)?;
    let most_steps = number_of(most_steps)?;
    match name {
        "run" => Some(Request::OnWhole(WholeRequest::Run {
            word,
            window,
            most_steps: Some(most_steps),
        })),
        "view" => Some(Request::OnWhole(WholeRequest::View {
            word,
            window,
            most_steps,
        })),
        _ => None,
    }
}

// The forms of a name, a word on each tape and a window.
fn read_three_and_window<'a>(
    name: &str,
    first: &'a str,
    second: &'a str,
    third: &'a str,
    left: &str,
    right: &str,
    steps: &str,
    output: &str,
) -> Option<Request<'a>>
    ensures { AreRead (name.now ∷ first.now ∷ second.now ∷ third.now
        ∷ left.now ∷ right.now ∷ steps.now ∷ output.now ∷ []) result }
{
    let words = TapeWords::Three(tape_word(first)?, tape_word(second)?, tape_word(third)?);
    let window = window_of(left, right, steps, output)?;
    match name {
        "build" => Some(Request::OnWhole(WholeRequest::Build { words, window })),
        "play" => Some(Request::OnWhole(WholeRequest::Play { words, window })),
        _ => None,
    }
}

// The forms of a name, a word on each tape, a window and a number.
fn read_three_window_and_steps<'a>(
    name: &str,
    first: &'a str,
    second: &'a str,
    third: &'a str,
    left: &str,
    right: &str,
    steps: &str,
    output: &str,
    most_steps: &str,
) -> Option<Request<'a>>
    ensures { AreRead (name.now ∷ first.now ∷ second.now ∷ third.now
        ∷ left.now ∷ right.now ∷ steps.now ∷ output.now ∷ most_steps.now ∷ []) result }
{
    let words = TapeWords::Three(tape_word(first)?, tape_word(second)?, tape_word(third)?);
    let window = window_of(left, right, steps, output)?;
    match name {
        "drive" => Some(Request::OnWhole(WholeRequest::Drive {
            words,
            window,
            most_steps: drive_steps_of(most_steps)?,
        })),
        "look" => Some(Request::OnWhole(WholeRequest::Look {
            words,
            window,
            most_steps: number_of(most_steps)?,
        })),
        _ => None,
    }
}
