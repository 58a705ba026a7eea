//! An input of two parts.

ghost use Rattle.std.specs.Prelude.{◌≡◌, ◌+◌, ◌<◌, ◌++◌, ◌∷◌, length, take, drop, MatchOption};
ghost use Rattle.bn_base.specs.Line.{IsInLine};
ghost use Rattle.bn_base.specs.Cuts.{IsCut, IsUncut};

use memchr::memchr;

/// The line between the two parts, with its byte 10.
const MARK: &[u8] = b"%\n";

/// The two parts of an input: the bytes before and after its first line that is exactly `%` with its byte 10. Returns
/// `None` exactly if there is no such line. Allocates no memory. (This project's own profile.)
pub fn cut_input(bytes: &[u8]) -> Option<(&[u8], &[u8])>
    ensures { MatchOption result (IsUncut bytes.now) (λ parts. IsCut bytes.now parts.0.now parts.1.now) }
{
    let mut begin = 0;
    while begin < bytes.len() {
        let rest = &bytes[begin..];
        if let Some(behind) = rest.strip_prefix(MARK) {
            return Some((&bytes[..begin], behind));
        }
        begin += line_end(rest)? + 1;
    }
    None
}

// The place of the first byte 10.
fn line_end(bytes: &[u8]) -> Option<usize>
    ensures line { MatchOption result (IsInLine bytes.now) (λ end. IsInLine (take end bytes.now)) }
    ensures behind { MatchOption result (IsInLine bytes.now) (λ end.
        bytes.now ≡ take end bytes.now ++ 10 ∷ drop (end + 1) bytes.now) }
    ensures within { MatchOption result (IsInLine bytes.now) (λ end. end < length bytes.now) }
{
    memchr(b'\n', bytes)
}
