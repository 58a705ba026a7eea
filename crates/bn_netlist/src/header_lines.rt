//! The six lines before those of the elements, one by one.

ghost use Rattle.std.specs.Prelude.{◌≡◌, [], ◌∷◌, ℕ, IfOk, IfErr, None, codes};
ghost use Rattle.bn_netlist_laws.specs.Reading.{named_after};
ghost use Rattle.bn_circuits.specs.declared.line.Line.{Line};
ghost use Rattle.bn_netlist_laws.specs.Sentences.{Title, Count, Start, End, Steps, At};
ghost use Rattle.bn_netlist_laws.specs.Spelling.{most_elements};
ghost use Rattle.bn_netlist.specs.LineReading.{TakesLine, RefusesLine};

use crate::draft::existing;
use crate::forms::{named_after, number_after, version_of};
use crate::line_refusal::NetlistRefusal;
use bn_circuits::{Line, MOST_ELEMENTS, Place};
use bn_netlist_laws::{MOST_ELEMENTS_IN_ONE, Version};

/// Line 1: the title of a configuration text, with its version.
pub fn take_title(line: &[u8]) -> Result<Version, NetlistRefusal>
    ensures read { IfOk result (λ v. TakesLine [] line.now (Title v)) }
    ensures refused { IfErr result (RefusesLine [] line.now) }
{
    let Some(version) = version_of(line) else {
        return Err(NetlistRefusal::Syntax { line: 1 });
    };
    Ok(version)
}

/// Line 2: the number of elements.
pub fn take_count(line: &[u8], version: Version) -> Result<u32, NetlistRefusal>
    ensures read { IfOk result (λ c. TakesLine (Title version ∷ []) line.now (Count c)) }
    ensures refused { IfErr result (RefusesLine (Title version ∷ []) line.now) }
{
    let Some(count) = number_after(line, b"elements ") else {
        return Err(NetlistRefusal::Syntax { line: 2 });
    };
    if count == 0 {
        return Err(NetlistRefusal::Syntax { line: 2 });
    }
    if count > most_elements(version) {
        return Err(NetlistRefusal::TooMany { line: 2 });
    }
    Ok(count as u32)
}

// The greatest number of elements of a text of this version.
fn most_elements(version: Version) -> u64
    ensures { result ≡ most_elements version }
{
    match version {
        Version::One => MOST_ELEMENTS_IN_ONE,
        Version::Two => MOST_ELEMENTS,
    }
}

/// Line 3: the start.
pub fn take_start(line: &[u8], version: Version, count: u32) -> Result<Line, NetlistRefusal>
    ensures read { IfOk result (λ s. TakesLine (Title version ∷ Count count ∷ []) line.now (Start s)) }
    ensures refused { IfErr result (RefusesLine (Title version ∷ Count count ∷ []) line.now) }
{
    let Some(start) = named_after(line, b"start ") else {
        return Err(NetlistRefusal::Syntax { line: 3 });
    };
    let Some(start) = existing(start, count) else {
        return Err(NetlistRefusal::Target { line: 3 });
    };
    Ok(start)
}

/// Line 5: the count of element steps.
pub fn take_steps(
    line: &[u8],
    version: Version,
    count: u32,
    start: Line,
    end: Line,
) -> Result<u64, NetlistRefusal>
    ensures read { IfOk result (λ t. TakesLine (Title version ∷ Count count ∷ Start start ∷ End end ∷ []) line.now
        (Steps t)) }
    ensures refused { IfErr result (RefusesLine (Title version ∷ Count count ∷ Start start ∷ End end ∷ []) line.now) }
{
    let Some(steps) = number_after(line, b"steps ") else {
        return Err(NetlistRefusal::Syntax { line: 5 });
    };
    Ok(steps)
}

/// Line 4: the end.
pub fn take_end(
    line: &[u8],
    version: Version,
    count: u32,
    start: Line,
) -> Result<Line, NetlistRefusal>
    ensures read { IfOk result (λ e. TakesLine (Title version ∷ Count count ∷ Start start ∷ []) line.now (End e)) }
    ensures refused { IfErr result (RefusesLine (Title version ∷ Count count ∷ Start start ∷ []) line.now) }
{
    let Some(end) = named_after(line, b"end ") else {
        return Err(NetlistRefusal::Syntax { line: 4 });
    };
    let Some(end) = existing(end, count) else {
        return Err(NetlistRefusal::Target { line: 4 });
    };
    Ok(end)
}

/// Line 6: where the signal is.
pub fn take_place(
    line: &[u8],
    version: Version,
    count: u32,
    start: Line,
    end: Line,
    steps: u64,
) -> Result<Place, NetlistRefusal>
    ensures read { IfOk result (λ p. TakesLine
        (Title version ∷ Count count ∷ Start start ∷ End end ∷ Steps steps ∷ []) line.now (At p)) }
    ensures refused { IfErr result (RefusesLine
        (Title version ∷ Count count ∷ Start start ∷ End end ∷ Steps steps ∷ []) line.now) }
{
    match named_after(line, b"at ") {
        Some(input) => {
            let Some(Line { element, line }) = existing(input, count) else {
                return Err(NetlistRefusal::Target { line: 6 });
            };
            Ok(Place::Enter { element, line })
        }
        None => take_left(line, version, count, start, end, steps),
    }
}

// The same for a signal that has left.
fn take_left(
    line: &[u8],
    version: Version,
    count: u32,
    start: Line,
    end: Line,
    steps: u64,
) -> Result<Place, NetlistRefusal>
    requires { named_after (codes "at ") line.now ≡ None }
    ensures read { IfOk result (λ p. TakesLine
        (Title version ∷ Count count ∷ Start start ∷ End end ∷ Steps steps ∷ []) line.now (At p)) }
    ensures refused { IfErr result (RefusesLine
        (Title version ∷ Count count ∷ Start start ∷ End end ∷ Steps steps ∷ []) line.now) }
{
    let Some(output) = named_after(line, b"left ") else {
        return Err(NetlistRefusal::Syntax { line: 6 });
    };
    let Some(Line { element, line }) = existing(output, count) else {
        return Err(NetlistRefusal::Target { line: 6 });
    };
    Ok(Place::Left { element, line })
}
