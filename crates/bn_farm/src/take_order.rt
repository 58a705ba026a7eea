//! Parsing a schedule, from left to right.

ghost use Rattle.bn_netlist_laws.specs.Reading.{Takes};
ghost use Rattle.bn_farm.specs.Reading.{order_taken, sign_taken};

use crate::order::Order;
use bn_netlist::Cursor;

// Reads a sign.
#[tactic(auto, unfolding(crate::specs::Reading::sign_taken))]
fn take_sign(cursor: &mut Cursor<'_>) -> Option<bool>
    ensures { Takes result cursor.new (sign_taken cursor.old) }
{
    if cursor.word(b"+ ").is_some() {
        return Some(true);
    }
    cursor.word(b"- ")?;
    Some(false)
}

/// Reads a whole line: its sign, the number of a circuit and a number of steps.
#[tactic(auto, unfolding(crate::specs::Reading::order_taken))]
pub(crate) fn take_order(cursor: &mut Cursor<'_>) -> Option<Order>
    ensures { Takes result cursor.new (order_taken cursor.old) }
{
    let forward = take_sign(cursor)?;
    let number = cursor.number()?;
    cursor.word(b" ")?;
    let count = cursor.number()?;
    cursor.word(b"\n")?;
    if count == 0 {
        return None;
    }
    Some(Order {
        forward,
        number,
        count,
    })
}
