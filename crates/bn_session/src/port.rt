//! The port of an element in a line of a script.

ghost use Rattle.std.specs.Prelude.{◌≡◌, None, Some, MatchOption};
ghost use Rattle.bn_netlist_laws.specs.Reading.{line_taken, named_after, number_taken, side_taken};

use crate::sentence::behind;
use bn_base::read_u64;
use bn_element::{EAST, NORTH, SOUTH, WEST};

// The element and the port in a line that is this word and a port of an element.
#[tactic(auto, unfolding(bn_netlist_laws::specs::Reading::named_after))]
pub(crate) fn named_after(line: &[u8], word: &[u8]) -> Option<(u64, u32)>
    ensures { result ≡ named_after word.now line.now }
{
    let port = behind(line, word)?;
    let (named, rest) = line_taken(port)?;
    if !rest.is_empty() {
        return None;
    }
    Some(named)
}

// The element and the port at the front of some bytes, and the bytes after them.
#[tactic(auto, unfolding(bn_netlist_laws::specs::Reading::line_taken))]
fn line_taken(bytes: &[u8]) -> Option<((u64, u32), &[u8])>
    ensures { MatchOption result (line_taken bytes.now ≡ None)
        (λ taken. line_taken bytes.now ≡ Some (taken.0, taken.1.now)) }
{
    let (element, point) = number_taken(bytes)?;
    let letter = behind(point, b".")?;
    let (side, rest) = side_taken(letter)?;
    Some(((element, side), rest))
}

// The number at the front of some bytes, and the bytes after it.
#[tactic(auto, unfolding(bn_netlist_laws::specs::Reading::number_taken))]
fn number_taken(bytes: &[u8]) -> Option<(u64, &[u8])>
    ensures { MatchOption result (number_taken bytes.now ≡ None)
        (λ taken. number_taken bytes.now ≡ Some (taken.0, taken.1.now)) }
{
    let Ok((number, end)) = read_u64(bytes, 0) else {
        return None;
    };
    Some((number, &bytes[end..]))
}

// The port whose letter is at the front of some bytes, and the bytes after it.
#[tactic(auto, unfolding(bn_netlist_laws::specs::Reading::side_taken))]
fn side_taken(bytes: &[u8]) -> Option<(u32, &[u8])>
    ensures { MatchOption result (side_taken bytes.now ≡ None)
        (λ taken. side_taken bytes.now ≡ Some (taken.0, taken.1.now)) }
{
    let (letter, rest) = bytes.split_first()?;
    let side = match *letter {
        b'n' => NORTH,
        b'e' => EAST,
        b's' => SOUTH,
        b'w' => WEST,
        _ => return None,
    };
    Some((side, rest))
}
