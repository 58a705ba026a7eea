//! Numbers in decimal digits.
ghost use Rattle.std.specs.Prelude.{◌≡◌, ◌↔◌, ◌+◌, ◌^◌, ◌-◌, ◌≤◌, [], ◌++◌, length, take_while, drop, min};
ghost use Rattle.std.specs.Prelude.{decimal, IfOk, OnOk, OnErr, IsErrOf};
ghost use Rattle.std.specs.List.{prefix_len};
ghost use Rattle.std.specs.Char.{is_ascii_digit};
ghost use Rattle.std.specs.Str.Parse.{digits_value};
ghost use Rattle.bn_base.specs.Number.{AreDigits, digits_at, HasLeadingZero, IsTooLarge, number_of, read_number};
ghost use Rattle.bn_base.specs.Number.{greatest};

use bn_lists::NoMemory;
use itoa::Buffer;

/// Why the bytes at a place are not a number.
#[derive(Clone, Copy, Debug, PartialEq, Eq)]
pub enum Digits {
    /// There is no digit at this place.
    NoDigit,
    /// There are two digits or more, and the first is a zero.
    LeadingZero,
    /// The number is above 2^62.
    TooLarge,
}

/// The greatest number that is read: 2^62.
pub const GREATEST: u64 = 1 << 62;

/// Reads the longest run of ASCII digits from the place `at` on, which counts from 0 and is at most the length, and
/// returns its value and the place after it. The error is `NoDigit` exactly if the run is empty, `LeadingZero` exactly
/// if it has two digits or more and begins with a zero, and `TooLarge` exactly if it has neither fault and its value is
/// above 2^62. Allocates no memory.
pub fn read_u64(bytes: &[u8], at: usize) -> Result<(u64, usize), Digits>
    requires { at ≤ length bytes.now }
    ensures reads { result ≡ read_number bytes.now at }
    ensures value { IfOk result (λ read. read.0 ≡ digits_value 10 (digits_at bytes.now at)) }
    ensures bound { IfOk result (λ read. read.0 ≤ greatest) }
    ensures behind { IfOk result (λ read. read.1 ≡ at + length (digits_at bytes.now at)) }
    ensures within { IfOk result (λ read. read.1 ≤ length bytes.now) }
    ensures spelled { IfOk result (λ read.
        drop at bytes.now ≡ decimal read.0 ++ drop read.1 bytes.now) }

    ensures no_digit { IsErrOf result Digits.NoDigit ↔ (digits_at bytes.now at ≡ []) }
    ensures leading_zero { IsErrOf result Digits.LeadingZero ↔
        HasLeadingZero (digits_at bytes.now at) }
    ensures too_large { IsErrOf result Digits.TooLarge ↔ IsTooLarge (digits_at bytes.now at) }
{
    read_run(bytes, at)
}

// As `read_u64`, whose clauses follow from this one.
fn read_run(bytes: &[u8], at: usize) -> Result<(u64, usize), Digits>
    requires { at ≤ length bytes.now }
    ensures reads { result ≡ read_number bytes.now at }
    ensures within { IfOk result (λ read. read.1 ≤ length bytes.now) }
{
    let digits = run_at(bytes, at);
    match number(digits) {
        Ok(value) => Ok((value, at + digits.len())),
        Err(fault) => Err(fault),
    }
}

// The longest run of ASCII digits from this place on.
fn run_at(bytes: &[u8], at: usize) -> &[u8]
    requires { at ≤ length bytes.now }
    ensures run { result.now ≡ digits_at bytes.now at }
    ensures within { at + length result.now ≤ length bytes.now }
{
    let rest = &bytes[at..];
    &rest[..run_len(rest)]
}

// How many ASCII digits the bytes begin with.
fn run_len(bytes: &[u8]) -> usize
    ensures value { result ≡ prefix_len is_ascii_digit bytes.now }
    ensures within { result ≤ length bytes.now }
{
    bytes
        .iter()
        .take_while(|byte| byte.is_ascii_digit())
        .count()
}

// What a run of digits spells.
fn number(digits: &[u8]) -> Result<u64, Digits>
    requires { AreDigits digits.now }
    ensures { result ≡ number_of digits.now }
{
    if digits.is_empty() {
        return Err(Digits::NoDigit);
    }
    if digits.len() > 1 && digits[0] == b'0' {
        return Err(Digits::LeadingZero);
    }
    let value = capped_value(digits);
    if value > GREATEST {
        return Err(Digits::TooLarge);
    }
    Ok(value)
}

// The value of a run of digits, or some number above 2^62 if the value is above 2^62.
fn capped_value(digits: &[u8]) -> u64
    requires { AreDigits digits.now }
    ensures { min result (greatest + 1) ≡ min (digits_value 10 digits.now) (greatest + 1) }
{
    let mut value: u64 = 0;
    for digit in digits {
        if value > GREATEST / 8 {
            return GREATEST + 1;
        }
        value = 10 * value + u64::from(*digit - b'0');
    }
    value
}

/// Appends the decimal text of `value`, without a leading zero. On `NoMemory` nothing is appended.
pub fn push_u64(out: &mut Vec<u8>, value: u64) -> Result<(), NoMemory>
    ensures ok { OnOk result (out.new.items ≡ out.old.items ++ decimal value) }
    ensures err { OnErr result (out.new.items ≡ out.old.items) }
{
    let mut buffer = Buffer::new();
    out.extend_from_slice(buffer.format(value).as_bytes())?;
    Ok(())
}
