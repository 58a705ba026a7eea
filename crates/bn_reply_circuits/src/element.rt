//! The command `element`.

ghost use Rattle.std.specs.Prelude.{◌≡◌, [], IfOk};
ghost use Rattle.bn_rlem.specs.Elements.{IsLineCount};
ghost use Rattle.bn_reply_circuits.specs.ElementReply.{ElementReplies};

use bn_lists::NoMemory;
use bn_reply::{Reply, Status};
use bn_rlem::{element_count, element_moves};
use bn_rsm::write_moves;
use std::alloc::Global;

/// The answer of `element` to a number of ports, from 1 to 10, and the number of an element, counted from 0 (Morita
/// 2017): the table of the reversible element with one bit of memory that has this many ports and this number; or that
/// there is no such element.
pub fn reply_element(alloc: Global, lines: u32, number: u64) -> Result<Reply, NoMemory>
    requires { IsLineCount lines }
    ensures { IfOk result (λ r. ElementReplies lines number r.status r.text.items []) }
{
    if number >= element_count(lines) {
        return Ok(Reply {
            text: Vec::from_slice(alloc, b"word: number\n")?,
            status: Status::Word,
        });
    }
    let moves = element_moves(alloc, lines, number)?;
    Ok(Reply {
        text: write_moves(alloc, moves.as_slice())?,
        status: Status::Done,
    })
}
