//! The breakpoints while a script is played.

ghost use Rattle.std.specs.Prelude.{◌≡◌, ◌++◌, ◌∷◌, [], None, Some, true, false, IfOk, OnOk, MatchOption};
ghost use Rattle.std.specs.Option.{option_map};
ghost use Rattle.bn_session.specs.Labels.{stands};
ghost use Rattle.bn_session.specs.Breakpoints.{breakpoint, holds, first_label, some_holds, labels_of, without_break};
ghost use Rattle.bn_session.specs.Kept.{kept_breaks, HaveValues, mark_at, marked_at, with_mark};

use crate::condition::Condition;
use bn_circuits::Place;
use bn_lists::NoMemory;
use indexmap::IndexMap;
use slab::Slab;
use std::alloc::Global;
use std::marker::Model;

/// The breakpoints. Contracts see their list, in the order in which they were set.
#[derive(Drop)]
pub(crate) struct Breaks {
    alloc: Global,
    conditions: Slab<Condition>,
    keys: IndexMap<Vec<u8>, usize>,
    // For each element of the circuit, whether a breakpoint may hold where the signal enters it. A mark may remain
    // after the breakpoint is removed.
    marks: Vec<bool>,
}

impl Model for Breaks {
    ghost use Rattle.std.specs.Prelude.{List};
    ghost use Rattle.bn_session.specs.Breakpoints.{Breakpoint};
    ghost use Rattle.bn_session.specs.Kept.{kept_breaks, AreKept};

    ghost Value = { List Breakpoint };

    ghost view = { λ b. kept_breaks b.conditions b.keys.entries };

    ghost invariant = { λ b. AreKept b.conditions b.keys.entries b.marks.items };
}

impl Breaks {
    /// No breakpoint, on a circuit of this many elements.
    pub(crate) fn new(alloc: Global, elements: u32) -> Result<Breaks, NoMemory>
        ensures { IfOk result (λ breaks. breaks ≡ []) }
    {
        let marks = vec![in alloc; false; elements as usize]?;
        Ok(Breaks {
            alloc,
            conditions: Slab::new(alloc),
            keys: IndexMap::new(alloc),
            marks,
        })
    }

    /// Sets a breakpoint with a label that is new.
    pub(crate) fn add(&mut self, label: &[u8], condition: Condition) -> Result<(), NoMemory>
        requires { stands label.now (labels_of self.old) ≡ false }
        ensures { OnOk result (self.new ≡ self.old ++ breakpoint label.now condition ∷ []) }
    {
        let Ok(owned) = Vec::from_slice(self.alloc, label) else {
            return Err(NoMemory);
        };
        let Ok(key) = self.conditions.insert(condition) else {
            return Err(NoMemory);
        };
        match self.keys.insert(owned, key) {
            Ok(_) => {
                mark(&mut self.marks, condition);
                Ok(())
            }
            Err(_) => {
                self.conditions.try_remove(key);
                Err(NoMemory)
            }
        }
    }

    /// Removes the breakpoint with a label. The others keep their places.
    pub(crate) fn remove(&mut self, label: &[u8])
        ensures { self.new ≡ without_break label.now self.old }
    {
        if let Some(key) = self.keys.shift_remove(label) {
            self.conditions.try_remove(key);
        }
    }

    /// Whether a breakpoint holds at a place, which is a moment of a state, or no moment.
    pub(crate) fn some_holds(&self, place: Place, moment: Option<u32>) -> bool
        ensures { result ≡ some_holds place moment self.now }
    {
        self.may_hold(place, moment) && self.first_label(place, moment).is_some()
    }

    /// The label of the first breakpoint that holds at a place, which is a moment of a state, or no moment.
    pub(crate) fn first_label(&self, place: Place, moment: Option<u32>) -> Option<&[u8]>
        ensures { MatchOption result (first_label place moment self.now ≡ None)
            (λ label. first_label place moment self.now ≡ Some label.now) }
    {
        first_held(&self.conditions, &self.keys, place, moment)
    }

    // Whether a breakpoint may hold: only at a moment, or where the signal enters an element with a mark.
    fn may_hold(&self, place: Place, moment: Option<u32>) -> bool
        ensures { result ≡ false → some_holds place moment self.now ≡ false }
    {
        moment.is_some() || is_marked(&self.marks, place)
    }
}

// The first label whose condition holds.
fn first_held<'a>(
    conditions: &Slab<Condition>,
    keys: &'a IndexMap<Vec<u8>, usize>,
    place: Place,
    moment: Option<u32>,
) -> Option<&'a [u8]>
    requires { HaveValues conditions.now keys.now.entries }
    ensures { MatchOption result (first_label place moment (kept_breaks conditions.now keys.now.entries) ≡ None)
        (λ label. first_label place moment (kept_breaks conditions.now keys.now.entries) ≡ Some label.now) }
{
    for (label, key) in keys.iter() {
        if let Some(condition) = conditions.get(*key) {
            if holds(place, moment, *condition) {
                return Some(label.as_slice());
            }
        }
    }
    None
}

// Whether there is a mark at the element that the signal enters.
fn is_marked(marks: &[bool], place: Place) -> bool
    ensures { result ≡ mark_at marks.now place }
{
    match place {
        Place::Enter { element, .. } => match marks.get(element as usize) {
            Some(mark) => *mark,
            None => true,
        },
        Place::Left { .. } => false,
    }
}

// Marks the element at which a condition holds.
fn mark(marks: &mut [bool], condition: Condition)
    ensures { marks.new ≡ with_mark marks.old condition }
{
    match condition {
        Condition::AtState(_) => {}
        Condition::AtElement(element) => mark_element(marks, element),
        Condition::AtLine { element, .. } => mark_element(marks, element),
    }
}

// Marks an element, if the circuit has it.
fn mark_element(marks: &mut [bool], element: u64)
    ensures { marks.new ≡ marked_at marks.old element }
{
    let element = element as usize;
    if element < marks.len() {
        marks[element] = true;
    }
}

// Whether a condition holds.
fn holds(place: Place, moment: Option<u32>, condition: Condition) -> bool
    ensures { result ≡ holds place moment condition }
{
    match condition {
        Condition::AtState(state) => moment == Some(state),
        Condition::AtElement(element) => match place {
            Place::Enter {
                element: entered,
                ..
            } => u64::from(entered) == element,
            Place::Left { .. } => false,
        },
        Condition::AtLine { element, line } => match place {
            Place::Enter {
                element: entered,
                line: port,
            } => u64::from(entered) == element && port == line,
            Place::Left { .. } => false,
        },
    }
}
