//! Reading network texts.

ghost use Rattle.std.specs.Prelude.{IfOk, IfErr};
ghost use Rattle.bn_network_text.specs.Networks.{Spells, IsNetworkRefusal, drawing_of};
ghost use Rattle.bn_network_text.specs.Drafting.{IsFirstOf, HasDrawn};

use crate::draft::Draft;
use crate::fault::{NetworkFault, NetworkRefusal};
use crate::header::header_of;
use crate::lines::read_page;
use crate::network::Network;
use crate::page::{HEADER_LINES, Page};
use crate::shape::Shape;
use std::alloc::Global;

/// Reads a network text over tables with these numbers of states and ports. The result is `Ok` only if the text
/// describes the network. A refusal names the first faulty line, counted from 1, and the first fault of that line.
/// (This project's own profile.)
pub fn read_network(alloc: Global, shapes: &[Shape], text: &[u8]) -> Result<Network, NetworkRefusal>
    ensures network { IfOk result (λ n. Spells shapes.now text.now (drawing_of n)) }
    ensures refused { IfErr result (IsNetworkRefusal shapes.now text.now) }
{
    let page = read_page(alloc, text)?;
    network_of(alloc, shapes, &page)
}

// The network that the lines describe.
fn network_of(alloc: Global, shapes: &[Shape], page: &Page) -> Result<Network, NetworkRefusal>
    ensures network { IfOk result (HasDrawn shapes.now page.now) }
    ensures refused { IfErr result (IsFirstOf shapes.now page.now) }
{
    let header = header_of(shapes, page)?;
    let mut draft = Draft::new(alloc);
    for number in 0..header.count {
        draft.take(shapes, page, &header, number)?;
    }
    let lines = header.count + HEADER_LINES;
    if page.goes_on(lines) {
        return Err(NetworkRefusal::Line {
            line: u64::from(lines) + 1,
            fault: NetworkFault::Syntax,
        });
    }
    let Draft { modules, wires, .. } = draft;
    Ok(Network {
        modules,
        wires,
        start: header.start,
        end: header.end,
        place: header.place,
    })
}
