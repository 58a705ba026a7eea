//! The names that are numbered while a table is read.

ghost use Rattle.std.specs.Prelude.{◌≡◌, ◌≤◌, ◌<◌, ◌-◌, ◌^◌, [], OnOk, IfOk, length, bytes_eq};
ghost use Rattle.std.proofs.lemmas.Slice.Eq.{bytes_eq-Decides};
ghost use Rattle.bn_csv.specs.NumberingLaws.{AreApart};
ghost use Rattle.bn_quad.specs.Kept.{Agree, deed_of};
ghost use Rattle.bn_quad.specs.Names.{naming_of, symbols_on};
ghost use Rattle.bn_qtable.specs.Fields.{says};
ghost use Rattle.bn_qtable.specs.Draft.{Stands, with_says};
ghost use Rattle.bn_qtable.specs.Named.{on_tape};

use crate::entry::{Fields, TapeText};
use bn_csv::Names;
use bn_lists::NoMemory;
use bn_quad::{Act, Quad, QuadNames};
use std::alloc::Global;
use std::marker::Model;

/// The names of the states and of each tape's symbols, each kind numbered by first appearance.
pub struct Lists {
    states: Names,
    one: Names,
    two: Names,
    three: Names,
}

// Written out: a function that owns lists drops them with one call, which makes each proof much shorter.
impl Drop for Lists {
    fn drop(self) {
        let Lists {
            states: _,
            one: _,
            two: _,
            three: _,
        } = self;
    }
}

impl Model for Lists {
    ghost use Rattle.bn_quad.specs.Names.{Naming, naming_of};

    ghost Value = { Naming };

    ghost view = { λ l. naming_of l.states l.one l.two l.three };
}

impl Lists {
    ghost use Rattle.bn_quad.specs.Kept.{quad_of, rule_of};
    ghost use Rattle.bn_qtable.specs.Draft.{Adds, AreListed, HasRoom, blanks_alone};
    ghost use Rattle.bn_qtable.specs.Entry.{HasForms};
    ghost use Rattle.bn_qtable.specs.Fields.{said};
    ghost use Rattle.bn_qtable.specs.Rows.{counts_of};

    /// The names before the first entry: each tape has only the blank.
    pub fn new(alloc: Global) -> Result<Lists, NoMemory>
        ensures { IfOk result (λ l. l ≡ blanks_alone) }
    {
        let mut lists = Lists {
            states: Names::new(alloc),
            one: Names::new(alloc),
            two: Names::new(alloc),
            three: Names::new(alloc),
        };
        lists.one.number_of(b"_")?;
        lists.two.number_of(b"_")?;
        lists.three.number_of(b"_")?;
        Ok(lists)
    }

    /// How many states there are.
    pub fn state_count(&self) -> u32
        ensures { result ≡ length self.now.states }
    {
        self.states.len()
    }

    /// How many symbols the tapes have, tape 1 first.
    pub fn symbol_counts(&self) -> [u32; 3]
        ensures { result ≡ counts_of self.now }
    {
        [self.one.len(), self.two.len(), self.three.len()]
    }

    /// The quadruple of an entry. New names are added in the order in which they appear in the entry.
    pub fn number(&mut self, fields: &Fields) -> Result<Quad, NoMemory>
        requires room { HasRoom self.old }
        requires forms { HasForms (said fields.now) }
        ensures adds { IfOk result (λ q. Adds self.old (said fields.now) (rule_of q) self.new) }
        ensures kept { IfOk result (λ q. quad_of (rule_of q) ≡ q) }
    {
        let state = self.states.number_of(fields.state)?;
        let (read1, act1) = number_text(&mut self.one, &fields.one)?;
        let (read2, act2) = number_text(&mut self.two, &fields.two)?;
        let (read3, act3) = number_text(&mut self.three, &fields.three)?;
        let next = self.states.number_of(fields.next)?;
        Ok(Quad {
            state,
            read: [read1, read2, read3],
            act: [act1, act2, act3],
            next,
        })
    }

    /// The same names, with the same numbers, as the names of a machine.
    pub fn gather(&self, alloc: Global) -> Result<QuadNames, NoMemory>
        requires { AreListed self.now }
        ensures { IfOk result (λ names. names ≡ self.now) }
    {
        let mut names = QuadNames::empty(alloc);
        gather_states(&mut names, &self.states)?;
        gather_symbols(&mut names, 1, &self.one)?;
        gather_symbols(&mut names, 2, &self.two)?;
        gather_symbols(&mut names, 3, &self.three)?;
        Ok(names)
    }
}

// The read and the action on a tape, by the numbers of its symbols. New symbols are added at the end.
fn number_text(symbols: &mut Names, text: &TapeText) -> Result<(Option<u32>, Act), NoMemory>
    requires { length symbols.old < 2 ^ 32 - 2 }
    ensures symbols { OnOk result (symbols.new ≡ with_says symbols.old (says text.now)) }
    ensures stands { IfOk result (λ p. Stands symbols.new (deed_of p.0 p.1) (says text.now)) }
    ensures unmixed { IfOk result (λ p. Agree p.0 p.1) }
{
    match *text {
        TapeText::Symbols { read, written } => {
            let read = symbols.number_of(read)?;
            let written = symbols.number_of(written)?;
            Ok((Some(read), Act::Write(written)))
        }
        TapeText::Move(shift) => Ok((None, Act::Shift(shift))),
    }
}

// Adds the names of the states.
fn gather_states(names: &mut QuadNames, list: &Names) -> Result<(), NoMemory>
    requires none { names.old.states ≡ [] }
    requires apart { AreApart bytes_eq bytes_eq-Decides list.now }
    ensures { OnOk result (names.new ≡ naming_of list.now names.old.one names.old.two names.old.three) }
{
    'states: for number in 0..list.len() {
        names.add_state(list.get(number))?;
    }
    Ok(())
}

// Adds the names of the symbols of a tape from 1 to 3.
fn gather_symbols(names: &mut QuadNames, tape: u32, list: &Names) -> Result<(), NoMemory>
    requires first { 1 ≤ tape }
    requires last { tape ≤ 3 }
    requires none { symbols_on names.old tape ≡ [] }
    requires apart { AreApart bytes_eq bytes_eq-Decides list.now }
    ensures { OnOk result (names.new ≡ on_tape names.old tape list.now) }
{
    'symbols: for number in 0..list.len() {
        names.add_symbol(tape, list.get(number))?;
    }
    Ok(())
}
