//! Names of the states and the symbols of a quadruple machine.
ghost use Rattle.std.specs.Prelude.{◌≡◌, ℕ, ◌<◌, ◌≤◌, ◌-◌, ◌^◌, ◌++◌, ◌∷◌, [], length, slice_get, Some, IfSome, IfNone};
ghost use Rattle.std.specs.Prelude.{OnOk, OnErr, Contains};
ghost use Rattle.bn_quad.specs.Names.{AreApart};

use bn_lists::NoMemory;
use std::alloc::Global;
use std::marker::Model;

// Names, each a run of bytes, no two of them the same, and fewer than 2^32. A name's number, counted from 0, is its
// place.
#[derive(Drop)]
struct NameList {
    alloc: Global,
    names: Vec<Vec<u8>>,
}

impl Model for NameList {
    ghost use Rattle.std.specs.Prelude.{ℕ, List, map};
    ghost use Rattle.bn_quad.specs.Names.{AreNames};

    ghost Value = { List (List ℕ) };

    ghost view = { λ l. map (λ v. v.items) l.names.items };

    ghost invariant = { λ l. AreNames (map (λ v. v.items) l.names.items) };
}

impl NameList {
    // No names.
    fn new(alloc: Global) -> NameList
        ensures { result ≡ [] }
    {
        NameList {
            alloc,
            names: Vec::new(alloc),
        }
    }

    // The name with a number.
    fn get(&self, number: u32) -> &[u8]
        requires { number < length self.now }
        ensures name { slice_get self.now number ≡ Some result.now }
        ensures apart { AreApart self.now }
    {
        self.names[number as usize].as_slice()
    }

    // The number of a name, or `None` exactly if the list does not contain it.
    fn find(&self, name: &[u8]) -> Option<u32>
        ensures found { IfSome result (λ number. slice_get self.now number ≡ Some name.now) }
        ensures none { IfNone result (¬ Contains self.now name.now) }
    {
        for (index, known) in self.names.iter().enumerate() {
            if known.as_slice() == name {
                return Some(index as u32);
            }
        }
        None
    }

    // Adds a name that is new at the end.
    fn add(&mut self, name: &[u8]) -> Result<(), NoMemory>
        requires new { ¬ Contains self.old name.now }
        requires room { length self.old < 2 ^ 32 - 1 }
        ensures ok { OnOk result (self.new ≡ self.old ++ name.now ∷ []) }
        ensures err { OnErr result (self.new ≡ self.old) }
    {
        let owned = Vec::from_slice(self.alloc, name)?;
        self.names.push(owned)?;
        Ok(())
    }
}

/// Names of the states of a quadruple machine, and of the symbols of its three tapes. The states have different names,
/// and the symbols of each tape have different names. A name is a run of bytes, and its number, counted from 0, is its
/// place among the names of its kind; there are fewer than 2^32 of a kind. Contracts see the four lists of names.
#[derive(Drop)]
pub struct QuadNames {
    states: NameList,
    one: NameList,
    two: NameList,
    three: NameList,
}

impl Model for QuadNames {
    ghost use Rattle.bn_quad.specs.Names.{Naming, naming_of};

    ghost Value = { Naming };

    ghost view = { λ n. naming_of n.states n.one n.two n.three };
}

impl QuadNames {
    ghost use Rattle.bn_quad.specs.Names.{Naming, AreApart, nameless, symbols_on, with_state, with_symbol};

    /// A naming without names. Allocates no memory.
    pub fn empty(alloc: Global) -> QuadNames
        ensures { result ≡ nameless }
    {
        QuadNames {
            states: NameList::new(alloc),
            one: NameList::new(alloc),
            two: NameList::new(alloc),
            three: NameList::new(alloc),
        }
    }

    // The names of the symbols of a tape from 1 to 3.
    fn on(&self, tape: u32) -> &NameList
        requires first { 1 ≤ tape }
        requires last { tape ≤ 3 }
        ensures { result.now ≡ symbols_on self.now tape }
    {
        match tape {
            1 => &self.one,
            2 => &self.two,
            _ => &self.three,
        }
    }

    /// The name of a state, counted from 0.
    pub fn state(&self, number: u32) -> &[u8]
        requires { number < length self.now.states }
        ensures name { slice_get self.now.states number ≡ Some result.now }
        ensures apart { AreApart self.now.states }
    {
        self.states.get(number)
    }

    /// The name of a symbol, counted from 0, of a tape from 1 to 3.
    pub fn symbol(&self, tape: u32, number: u32) -> &[u8]
        requires first { 1 ≤ tape }
        requires last { tape ≤ 3 }
        requires inside { number < length (symbols_on self.now tape) }
        ensures name { slice_get (symbols_on self.now tape) number ≡ Some result.now }
        ensures apart { AreApart (symbols_on self.now tape) }
    {
        self.on(tape).get(number)
    }

    /// The number of the state with a name, counted from 0, or `None` exactly if no state has the name.
    pub fn find_state(&self, name: &[u8]) -> Option<u32>
        ensures found { IfSome result (λ number. slice_get self.now.states number ≡ Some name.now) }
        ensures none { IfNone result (¬ Contains self.now.states name.now) }
    {
        self.states.find(name)
    }

    /// Gives the next state number to a name that no state has. On `NoMemory` the names are unchanged.
    pub fn add_state(&mut self, name: &[u8]) -> Result<(), NoMemory>
        requires new { ¬ Contains self.old.states name.now }
        requires room { length self.old.states < 2 ^ 32 - 1 }
        ensures ok { OnOk result (self.new ≡ with_state self.old name.now) }
        ensures err { OnErr result (self.new ≡ self.old) }
    {
        self.states.add(name)
    }

    /// Gives the next symbol number of a tape from 1 to 3 to a name that no symbol of the tape has. On `NoMemory` the
    /// names are unchanged.
    pub fn add_symbol(&mut self, tape: u32, name: &[u8]) -> Result<(), NoMemory>
        requires first { 1 ≤ tape }
        requires last { tape ≤ 3 }
        requires new { ¬ Contains (symbols_on self.old tape) name.now }
        requires room { length (symbols_on self.old tape) < 2 ^ 32 - 1 }
        ensures ok { OnOk result (self.new ≡ with_symbol self.old tape name.now) }
        ensures err { OnErr result (self.new ≡ self.old) }
    {
        match tape {
            1 => self.one.add(name),
            2 => self.two.add(name),
            _ => self.three.add(name),
        }
    }
}
