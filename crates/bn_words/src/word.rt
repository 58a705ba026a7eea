//! What one argument after a command's name says.

ghost use Rattle.std.specs.Prelude.{◌∷◌, ◌≤◌, [], MatchOption};
ghost use Rattle.bn_base.specs.Number.{greatest};
ghost use Rattle.bn_behaviour.specs.PortNames.{port_names_of};
ghost use Rattle.bn_network_assembly.specs.Assembled.{limits_of};
ghost use Rattle.bn_qtable.specs.TapeWords.{tape_word_of};
ghost use Rattle.bn_words.specs.Words.{AreDriveSteps, AreLimits, AreNoDriveSteps, AreNoLimits, IsCount, IsNoCount};
ghost use Rattle.bn_words.specs.Words.{IsNoNumber, IsNoTapeWord, IsNoWord, IsNumber, IsTapeWord, IsWord};
ghost use Rattle.bn_words.specs.Words.{AreNoPortNames, ArePortNames, IsNoNumberFromOne, IsNumberFromOne};

use bn_base::{MOST_COUNT, read_u64};
use bn_behaviour::PortNames;
use bn_network::MOST_DRIVE_STEPS;
use bn_network_assembly::Windows;
use bn_qtable::TapeWord;

// The number that fills an argument, `None` exactly if no number up to 2^62 does.
pub(crate) fn number_of(word: &str) -> Option<u64>
    ensures { MatchOption result (IsNoNumber word.now) (IsNumber word.now) }
{
    match read_u64(word.as_bytes(), 0) {
        Ok((number, end)) => {
            if end == word.len() {
                Some(number)
            } else {
                None
            }
        }
        Err(_) => None,
    }
}

// The number that fills an argument, `None` exactly if no number up to the greatest count does.
pub(crate) fn count_of(word: &str) -> Option<u32>
    ensures { MatchOption result (IsNoCount word.now) (IsCount word.now) }
{
    let number = number_of(word)?;
    if number > MOST_COUNT {
        return None;
    }
    Some(number as u32)
}

// The number that fills an argument, `None` exactly if no number from 1 up to the greatest one does.
pub(crate) fn number_from_one(word: &str, most: u64) -> Option<u64>
    requires { most ≤ greatest }
    ensures { MatchOption result (IsNoNumberFromOne most word.now) (IsNumberFromOne most word.now) }
{
    let number = number_of(word)?;
    if number < 1 || number > most {
        return None;
    }
    Some(number)
}

// The number that fills an argument, `None` exactly if no number up to the greatest number of steps of a drive does.
pub(crate) fn drive_steps_of(word: &str) -> Option<u64>
    ensures { MatchOption result (AreNoDriveSteps word.now) (AreDriveSteps word.now) }
{
    let number = number_of(word)?;
    if number > MOST_DRIVE_STEPS {
        return None;
    }
    Some(number)
}

// The letters after the byte `=`, `None` exactly if the argument does not begin with it.
pub(crate) fn letters_of(word: &str) -> Option<&[u8]>
    ensures { MatchOption result (IsNoWord word.now) (λ letters. IsWord word.now letters.now) }
{
    match word.as_bytes() {
        [b'=', letters @ ..] => Some(letters),
        _ => None,
    }
}

// The names of ports after the byte `:` of each of two arguments, `None` exactly if one of them does not begin with it.
pub(crate) fn port_names<'a>(inputs: &'a str, outputs: &'a str) -> Option<PortNames<'a>>
    ensures { MatchOption result (AreNoPortNames inputs.now outputs.now)
        (λ names. ArePortNames inputs.now outputs.now (port_names_of names)) }
{
    match (inputs.as_bytes(), outputs.as_bytes()) {
        ([b':', inputs @ ..], [b':', outputs @ ..]) => Some(PortNames { inputs, outputs }),
        _ => None,
    }
}

// The word on a tape: letters after the byte `=`, or names after the byte `:`; `None` exactly if it begins with
// neither.
pub(crate) fn tape_word(word: &str) -> Option<TapeWord<'_>>
    ensures { MatchOption result (IsNoTapeWord word.now) (λ read. IsTapeWord word.now (tape_word_of read)) }
{
    match word.as_bytes() {
        [b'=', letters @ ..] => Some(TapeWord::Letters(letters)),
        [b':', names @ ..] => Some(TapeWord::Names(names)),
        _ => None,
    }
}

// The window of four limits, `None` exactly if one of them is no count.
pub(crate) fn window_of(left: &str, right: &str, steps: &str, output: &str) -> Option<Windows>
    ensures { MatchOption result (AreNoLimits (left.now ∷ right.now ∷ steps.now ∷ output.now ∷ []))
        (λ window. AreLimits (left.now ∷ right.now ∷ steps.now ∷ output.now ∷ []) (limits_of window)) }
{
    let left1 = count_of(left)?;
    let right1 = count_of(right)?;
    let right2 = count_of(steps)?;
    let right3 = count_of(output)?;
    Some(Windows {
        left1,
        right1,
        right2,
        right3,
    })
}
