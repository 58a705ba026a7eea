//! Ports that lines name.

ghost use Rattle.std.specs.Prelude.{◌≡◌, ◌<◌, ◌^◌, true, false, MatchOption};
ghost use Rattle.std.specs.Bool.{OnTrue};
ghost use Rattle.bn_network_text.specs.Faults.{count_in, has_port, is_up_to, ports_at, ports_of, shape_at, line_of};

use crate::entry::Kind;
use crate::page::Page;
use crate::shape::Shape;
use bn_base::MOST_COUNT;
use bn_circuits::Line;

// The table with this number, counted from 1.
pub(crate) fn shape_at(shapes: &[Shape], table: u64) -> Option<Shape>
    ensures { result ≡ shape_at shapes.now table }
{
    if table == 0 || table > shapes.len() as u64 {
        return None;
    }
    Some(shapes[table as usize - 1])
}

// The number of ports of a module, by what its line says.
pub(crate) fn ports_of(shapes: &[Shape], kind: Kind) -> Option<u32>
    ensures { result ≡ ports_of shapes.now kind }
{
    match kind {
        Kind::Machine { table, .. } => Some(shape_at(shapes, table)?.lines),
        Kind::Rotary { .. } => Some(4),
    }
}

// The number of ports of the module with this number.
fn ports_at(shapes: &[Shape], page: &Page, number: u32) -> Option<u32>
    ensures { result ≡ ports_at shapes.now page.now.says number }
{
    let entry = page.entry(number)?;
    ports_of(shapes, entry.kind)
}

// Whether the number is at most this one, or at most the greatest of any table.
fn is_up_to(line: u64, most: Option<u32>) -> bool
    ensures told { result ≡ is_up_to line most }
    ensures low { OnTrue result (line < 2 ^ 32) }
{
    match most {
        Some(most) => line <= u64::from(most),
        None => line <= MOST_COUNT,
    }
}

// The port, with its number counted from 0, if there is such a port as far as the line of its module tells.
pub(crate) fn existing(shapes: &[Shape], page: &Page, count: u32, port: (u64, u64)) -> Option<Line>
    requires { count ≡ count_in page.now.says }
    ensures { MatchOption result
        (has_port shapes.now page.now.says port ≡ false)
        (λ l. (l ≡ line_of port) × (has_port shapes.now page.now.says port ≡ true)) }
{
    let (module, line) = port;
    if module >= u64::from(count) || line == 0 {
        return None;
    }
    if !is_up_to(line, ports_at(shapes, page, module as u32)) {
        return None;
    }
    Some(Line {
        element: module as u32,
        line: (line - 1) as u32,
    })
}
