//! The configuration at which a machine is stuck, by the answer for which it has no quadruple and the contents of its
//! cells.

ghost use Rattle.std.specs.Prelude.{◌≡◌, ◌≤◌, ◌++◌, ◌∷◌, [], ℕ, List, true, false};
ghost use Rattle.std.specs.Prelude.{Some, IfSome, IfNone, is_some, slice_get};
ghost use Rattle.bn_lists.specs.Lists.{nth};
ghost use Rattle.bn_machine.specs.Outcome.{Limits};
ghost use Rattle.bn_machine.specs.Tape.{scanned};
ghost use Rattle.bn_quad.specs.Quadruples.{Configuration, Quadruples, Rule};
ghost use Rattle.bn_quad.specs.Kept.{quad_of, read_of};
ghost use Rattle.bn_quad.specs.declared.quad.Quad.{Quad as Quadruple};
ghost use Rattle.bn_network_laws.specs.Stops.{DeedReads, deed_at};
ghost use Rattle.bn_control.specs.Names.{listed};
ghost use Rattle.bn_reply_builds.specs.declared.awaited.Read.{Read as Awaited};
ghost use Rattle.bn_reply_builds.specs.Outcomes.{stop_at};
ghost use Rattle.bn_reply_builds.specs.Stopping.{IsAnswered, IsLeavingQuad};

use crate::awaited::{Answer, Read};
use crate::outcome::Stop;
use crate::scanned::scanned_on;
use bn_board::Spelled;
use bn_control::Symbols;
use bn_quad::{Quad, Uniform};

/// The configuration at which the machine is stuck, if it has awaited this read and received this answer, and its
/// cells show this: the cells do not contain the symbols that it has read.
pub(crate) fn stop_of(machine: &Uniform, read: Read, answer: Answer, shown: &Spelled) -> Stop
    ensures { (l : Limits) (d : Configuration ℕ) → IsAnswered machine.now l read answer shown.now d
        → result ≡ stop_at d }
{
    Stop {
        state: read.state,
        one: first_symbol(machine, read, answer, shown),
        two: second_symbol(machine, read, answer, shown),
        three: third_symbol(answer, shown),
    }
}

// The symbol that the head of tape 1 scans then.
fn first_symbol(machine: &Uniform, read: Read, answer: Answer, shown: &Spelled) -> u32
    ensures { (l : Limits) (d : Configuration ℕ) → IsAnswered machine.now l read answer shown.now d
        → result ≡ scanned d.one }
{
    if answer.tape == 1 {
        answer.symbol
    } else if reads_tape(machine, read.state, 1) {
        first_of(read.before)
    } else {
        scanned_on(&shown.one)
    }
}

// The symbol that the head of tape 2 scans then.
fn second_symbol(machine: &Uniform, read: Read, answer: Answer, shown: &Spelled) -> u32
    ensures { (l : Limits) (d : Configuration ℕ) → IsAnswered machine.now l read answer shown.now d
        → result ≡ scanned d.two }
{
    if answer.tape == 2 {
        answer.symbol
    } else if answer.tape == 3 && reads_tape(machine, read.state, 2) {
        last_of(read.before)
    } else {
        scanned_on(&shown.two)
    }
}

// The symbol that the head of tape 3 scans then.
fn third_symbol(answer: Answer, shown: &Spelled) -> u32
    ensures { (m : Quadruples) (l : Limits) (read : Awaited) (d : Configuration ℕ)
        → IsAnswered m l read answer shown.now d → result ≡ scanned d.three }
{
    if answer.tape == 3 {
        answer.symbol
    } else {
        scanned_on(&shown.three)
    }
}

// Whether the quadruples that leave a state read a tape: all do, or none does.
fn reads_tape(machine: &Uniform, state: u32, tape: u32) -> bool
    requires first { 1 ≤ tape }
    requires last { tape ≤ 3 }
    ensures yes { result ≡ true → (n : ℕ) (r : Rule ℕ) → nth machine.now.rules n ≡ Some r → r.from ≡ state
        → DeedReads (deed_at r tape) }
    ensures no { result ≡ false → (n : ℕ) (r : Rule ℕ) → nth machine.now.rules n ≡ Some r → r.from ≡ state
        → DeedReads (deed_at r tape) → ⊥ }
{
    match find_leaving(machine.machine().quads(), state) {
        Some(quad) => is_read(&quad, tape),
        None => false,
    }
}

// The first quadruple that leaves a state.
fn find_leaving(quads: &[Quad], state: u32) -> Option<Quad>
    ensures found { IfSome result (λ q. IsLeavingQuad quads.now state q) }
    ensures none { IfNone result ((i : ℕ) (q : Quadruple) → slice_get quads.now i ≡ Some q → q.state ≡ state → ⊥) }
{
    for quad in quads {
        if quad.state == state {
            return Some(*quad);
        }
    }
    None
}

// Whether a quadruple reads a tape.
fn is_read(quad: &Quad, tape: u32) -> bool
    requires first { 1 ≤ tape }
    requires last { tape ≤ 3 }
    ensures { (r : Rule ℕ) → quad.now ≡ quad_of r → result ≡ is_some (read_of (deed_at r tape)) }
{
    let [one, two, three] = quad.read;
    match tape {
        1 => one.is_some(),
        2 => two.is_some(),
        _ => three.is_some(),
    }
}

// The first of some symbols, if there is one.
fn first_of(symbols: Symbols) -> u32
    ensures { (s : ℕ) (rest : List ℕ) → listed symbols ≡ s ∷ rest → result ≡ s }
{
    match symbols {
        Symbols::Empty => 0,
        Symbols::Leading(first, _) => first,
    }
}

// The last of some symbols, if there is one.
fn last_of(symbols: Symbols) -> u32
    ensures { (s : ℕ) (front : List ℕ) → listed symbols ≡ front ++ s ∷ [] → result ≡ s }
{
    match symbols {
        Symbols::Empty => 0,
        Symbols::Leading(first, second) => second.unwrap_or(first),
    }
}
