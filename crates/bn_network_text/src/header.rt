//! The header of a text.

ghost use Rattle.std.specs.Prelude.{◌≡◌, ◌<◌, ◌≤◌, ℕ, Some, None, IfOk, OnOk, IfErr};
ghost use Rattle.bn_network_text.specs.Entries.{Port};
ghost use Rattle.bn_network_text.specs.Faults.{count_by, count_fault, count_in, said_at, port_fault, line_of};
ghost use Rattle.bn_network_text.specs.Faults.{line_fault, start_in, end_in, place_in};
ghost use Rattle.bn_network_text.specs.Networks.{line_or};
ghost use Rattle.bn_network_text.specs.Drafting.{IsHeader, IsFirstOf};

use crate::fault::{NetworkFault, NetworkRefusal};
use crate::module::MOST_MODULES;
use crate::page::Page;
use crate::ports::existing;
use crate::shape::Shape;
use bn_circuits::Line;

// The number of modules, the start, the end, and the input port that the signal is about to enter.
#[derive(Clone, Copy)]
pub(crate) struct Header {
    pub(crate) count: u32,
    pub(crate) start: Line,
    pub(crate) end: Line,
    pub(crate) place: Line,
}

// The header of a text.
pub(crate) fn header_of(shapes: &[Shape], page: &Page) -> Result<Header, NetworkRefusal>
    ensures header { IfOk result (λ h. IsHeader page.now h.count h.start h.end) }
    ensures start { IfOk result (λ h. h.start ≡ line_or (start_in page.now.says)) }
    ensures end { IfOk result (λ h. h.end ≡ line_or (end_in page.now.says)) }
    ensures place { IfOk result (λ h. h.place ≡ line_or (place_in page.now.says)) }
    ensures faultless { OnOk result ((n : ℕ) → n < 5 → line_fault shapes.now page.now n ≡ None) }
    ensures refused { IfErr result (IsFirstOf shapes.now page.now) }
{
    if !page.has_title() {
        return Err(refusal(1, NetworkFault::Syntax));
    }
    let count = match count_of(page) {
        Ok(count) => count,
        Err(fault) => return Err(refusal(2, fault)),
    };
    let start = match port_of(shapes, page, count, page.start()) {
        Ok(port) => port,
        Err(fault) => return Err(refusal(3, fault)),
    };
    let end = match port_of(shapes, page, count, page.end()) {
        Ok(port) => port,
        Err(fault) => return Err(refusal(4, fault)),
    };
    let place = match port_of(shapes, page, count, page.place()) {
        Ok(port) => port,
        Err(fault) => return Err(refusal(5, fault)),
    };
    Ok(Header {
        count,
        start,
        end,
        place,
    })
}

// The refusal that tells this fault in this line.
fn refusal(line: u64, fault: NetworkFault) -> NetworkRefusal
    ensures { result ≡ NetworkRefusal.Line line fault }
{
    NetworkRefusal::Line { line, fault }
}

// The number of modules, if its line has no fault.
fn count_of(page: &Page) -> Result<u32, NetworkFault>
    ensures count { IfOk result (λ count. count ≡ count_in page.now.says) }
    ensures few { IfOk result (λ count. count ≤ MOST_MODULES) }
    ensures faultless { OnOk result (count_fault (count_by (said_at page.now.says 1)) ≡ None) }
    ensures refused { IfErr result (λ fault. count_fault (count_by (said_at page.now.says 1)) ≡ Some fault) }
{
    let Some(count) = page.count() else {
        return Err(NetworkFault::Syntax);
    };
    if count == 0 {
        return Err(NetworkFault::Syntax);
    }
    if count > u64::from(MOST_MODULES) {
        return Err(NetworkFault::TooMany);
    }
    Ok(count as u32)
}

// The port that a line names, if the line has no fault.
fn port_of(
    shapes: &[Shape],
    page: &Page,
    count: u32,
    port: Option<(u64, u64)>,
) -> Result<Line, NetworkFault>
    requires count { count ≡ count_in page.now.says }
    ensures port { IfOk result (λ l. (p : Port) × (port ≡ Some p) × (l ≡ line_of p)) }
    ensures faultless { OnOk result (port_fault shapes.now page.now.says port ≡ None) }
    ensures refused { IfErr result (λ fault. port_fault shapes.now page.now.says port ≡ Some fault) }
{
    let Some(port) = port else {
        return Err(NetworkFault::Syntax);
    };
    match existing(shapes, page, count, port) {
        Some(line) => Ok(line),
        None => Err(NetworkFault::Target),
    }
}
