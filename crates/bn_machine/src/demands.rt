//! The five conditions of standard form, each tested over the list of quintuples.
ghost use Rattle.std.specs.Prelude.{◌≡◌, ◌↔◌, ℕ, ◌<◌, ◌≤◌, ◌^◌, IsTrue, MatchOption, length};
ghost use Rattle.bn_machine.specs.Machine.{start_of, final_of};
ghost use Rattle.bn_machine.specs.Standard.{Clashes, IsBeginning, BeginsWell, NamesStart, IsEnding, EndsWell};
ghost use Rattle.bn_machine.specs.Standard.{NamesFinal, IsUnambiguous, HasLoneStart, HasLoneFinal};
ghost use Rattle.bn_machine.specs.Verdict.{IsLeastRepeat, IsLeastStart, IsLeastFinal};
ghost use Rattle.bn_machine.specs.Search.{HasNoRepeat, IsLeastSecond};

use crate::{Quint, Shift};

// Whether two quintuples with the numbers `i` and `j`, `i` less than `j`, share state and scanned symbol.
fn clashes(i: u32, first: &Quint, j: u32, second: &Quint) -> bool
    ensures { IsTrue result ↔ Clashes i first.now j second.now }
{
    i < j && first.state == second.state && first.read == second.read
}

// The first quintuple after number `i` that shares state and scanned symbol with it.
fn first_second(quints: &[Quint], i: u32) -> Option<u32>
    requires few { length quints.now < 2 ^ 32 }
    requires starts { 1 ≤ i }
    requires inside { i ≤ length quints.now }
    ensures { MatchOption result (HasNoRepeat quints.now i) (IsLeastSecond quints.now i) }
{
    let first = quints[i as usize - 1];
    for (index, second) in quints.iter().enumerate() {
        let j = index as u32 + 1;
        if clashes(i, &first, j, second) {
            return Some(j);
        }
    }
    None
}

// The first quintuple that shares state and scanned symbol with a later one, and the first such later one.
pub(crate) fn first_repeat(quints: &[Quint]) -> Option<(u32, u32)>
    requires { length quints.now < 2 ^ 32 }
    ensures { MatchOption result (IsUnambiguous quints.now) (λ r. IsLeastRepeat quints.now r.0 r.1) }
{
    for index in 0..quints.len() {
        let i = index as u32 + 1;
        if let Some(j) = first_second(quints, i) {
            return Some((i, j));
        }
    }
    None
}

// Whether the first quintuple reads a blank, writes a blank and shifts right.
pub(crate) fn begins_well(quints: &[Quint]) -> bool
    requires { 0 < length quints.now }
    ensures { IsTrue result ↔ BeginsWell quints.now }
{
    is_beginning(&quints[0])
}

// Whether the quintuple reads a blank, writes a blank and shifts right.
fn is_beginning(quint: &Quint) -> bool
    ensures { IsTrue result ↔ IsBeginning quint.now }
{
    quint.read == 0 && quint.write == 0 && quint.shift == Shift::Right
}

// Whether quintuple `i` contains the state elsewhere than as the state of the first quintuple.
fn names_start(quint: &Quint, i: u32, start: u32) -> bool
    ensures { IsTrue result ↔ NamesStart start i quint.now }
{
    quint.next == start || (1 < i && quint.state == start)
}

// The first quintuple that contains the start state at a place that standard form forbids.
pub(crate) fn first_start_use(quints: &[Quint], start: u32) -> Option<u32>
    requires few { length quints.now < 2 ^ 32 }
    requires state { start ≡ start_of quints.now }
    ensures { MatchOption result (HasLoneStart quints.now) (IsLeastStart quints.now) }
{
    for (index, quint) in quints.iter().enumerate() {
        let i = index as u32 + 1;
        if names_start(quint, i, start) {
            return Some(i);
        }
    }
    None
}

// Whether the last quintuple reads a blank, writes a blank, does not shift, and has a state other than the start state.
pub(crate) fn ends_well(quints: &[Quint], start: u32) -> bool
    requires some { 0 < length quints.now }
    requires state { start ≡ start_of quints.now }
    ensures { IsTrue result ↔ EndsWell quints.now }
{
    is_ending(&quints[quints.len() - 1], start)
}

// Whether the quintuple reads a blank, writes a blank, does not shift, and has a state other than this one.
fn is_ending(quint: &Quint, start: u32) -> bool
    ensures { IsTrue result ↔ IsEnding start quint.now }
{
    quint.read == 0 && quint.write == 0 && quint.shift == Shift::Stay && quint.state != start
}

// Whether quintuple `i` of `count` contains the state elsewhere than as the next state of the last quintuple.
fn names_final(quint: &Quint, i: u32, count: u32, last: u32) -> bool
    ensures { IsTrue result ↔ NamesFinal last count i quint.now }
{
    quint.state == last || (i < count && quint.next == last)
}

// The first quintuple that contains the final state at a place that standard form forbids.
pub(crate) fn first_final_use(quints: &[Quint], last: u32) -> Option<u32>
    requires few { length quints.now < 2 ^ 32 }
    requires state { last ≡ final_of quints.now }
    ensures { MatchOption result (HasLoneFinal quints.now) (IsLeastFinal quints.now) }
{
    let count = quints.len() as u32;
    for (index, quint) in quints.iter().enumerate() {
        let i = index as u32 + 1;
        if names_final(quint, i, count, last) {
            return Some(i);
        }
    }
    None
}
