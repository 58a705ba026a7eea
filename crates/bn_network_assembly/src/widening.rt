//! The first window for a word, and wider windows.

ghost use Rattle.std.specs.Prelude.{◌≡◌, ◌≤◌, length};
ghost use Rattle.bn_base.specs.declared.limits.TheConstants.{MOST_COUNT};
ghost use Rattle.bn_network_assembly.specs.Assembled.{limits_of};
ghost use Rattle.bn_network_assembly.specs.Widening.{IsEnd, first_window, number_at, widened};

use crate::windows::Windows;
use bn_machine::Side;

/// The first window in which a word is run: the right side of tape 1 has room for the word, and at least one cell;
/// every other side has one cell. It takes no memory. (Own to this project.)
pub fn first_windows(word: &[u32]) -> Windows
    requires { length word.now ≤ MOST_COUNT }
    ensures { limits_of result ≡ first_window word.now }
{
    Windows {
        left1: 1,
        right1: (word.len() as u32).max(1),
        right2: 1,
        right3: 1,
    }
}

/// The window with the number of one end doubled: either end of tape 1, or the right end of tape 2 or of tape 3. It
/// takes no memory. (Own to this project.)
pub fn widen(windows: &Windows, tape: u32, side: Side) -> Windows
    requires end { IsEnd tape side }
    requires some { 1 ≤ number_at (limits_of windows.now) tape side }
    requires low { number_at (limits_of windows.now) tape side ≤ 524288 }
    ensures { limits_of result ≡ widened (limits_of windows.now) tape side }
{
    let mut wider = *windows;
    match (tape, side) {
        (1, Side::Left) => wider.left1 *= 2,
        (1, Side::Right) => wider.right1 *= 2,
        (2, _) => wider.right2 *= 2,
        _ => wider.right3 *= 2,
    }
    wider
}
