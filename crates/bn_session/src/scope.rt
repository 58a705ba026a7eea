//! The meaning of the names in a script, as far as it has been read.

ghost use Rattle.std.specs.Prelude.{◌≡◌, ◌++◌, ◌∷◌, [], IfOk, IfErr, OnOk, MatchOption, true, false, is_some, Some};
ghost use Rattle.std.specs.Prelude.{slice_get, Contains};
ghost use Rattle.bn_session.specs.Labels.{stands};
ghost use Rattle.bn_session.specs.Sentences.{IsSayableInScript, is_label, BreakState, BreakElement, BreakLine, Drop};
ghost use Rattle.bn_session.specs.Reading.{said};
ghost use Rattle.bn_session.specs.Scripts.{IsFaultyLine, IsRefusalOf, BeginsWithFaultyLine, state_names};
ghost use Rattle.bn_session.specs.Progress.{Advances, AtLine, AsksFor, IsAsked, IsLineFault};

use crate::command::Command;
use crate::label::Label;
use crate::refusal::ScriptRefusal;
use crate::sentence::{Sentence, sentence_in};
use crate::standing::Standing;
use crate::states::States;
use bn_base::{Lines, NextLine};
use bn_lists::NoMemory;
use std::alloc::Global;

/// The states of a machine, if the script names states, and the labels in use. (`number` is the number of a line,
/// counted from 1, which refusals name.)
#[derive(Drop)]
pub(crate) struct Scope<'a> {
    alloc: Global,
    states: Option<States<'a>>,
    standing: Standing,
}

impl<'a> Scope<'a> {
    /// The scope of a script for these states before its first line.
    pub(crate) fn new(alloc: Global, states: Option<States<'a>>) -> Scope<'a>
        ensures states { result.states ≡ states.entry }
        ensures standing { result.standing ≡ [] }
    {
        Scope {
            alloc,
            states,
            standing: Standing::new(alloc),
        }
    }

    /// Reads the next line and returns its command; `None` exactly if no line is left.
    pub(crate) fn read_line(
        &mut self,
        lines: &mut Lines<'_>,
        number: u64,
    ) -> Result<Option<Command>, ScriptRefusal>
        ensures read { IfOk result (λ command.
            Advances self.old.states self.old.standing lines.old command lines.new self.new.standing) }
        ensures refused { IfErr result (IsRefusalOf
            (AtLine number (BeginsWithFaultyLine self.old.states self.old.standing lines.old))) }
        ensures states { self.new.states ≡ self.old.states }
    {
        match lines.next_line() {
            NextLine::Whole(line) => {
                let command = self.command_in(line, number)?;
                Ok(Some(command))
            }
            NextLine::Cut(_) => Err(ScriptRefusal::Form { line: number }),
            NextLine::End => Ok(None),
        }
    }

    // The command of a whole line.
    fn command_in(&mut self, line: &[u8], number: u64) -> Result<Command, ScriptRefusal>
        ensures asked { IfOk result (λ x.
            IsAsked self.old.states self.old.standing line.now x self.new.standing) }
        ensures refused { IfErr result (IsRefusalOf
            (AtLine number (IsLineFault self.old.states self.old.standing line.now))) }
        ensures states { self.new.states ≡ self.old.states }
    {
        let Some(sentence) = sentence_in(self.states.is_some(), line) else {
            return Err(ScriptRefusal::Form { line: number });
        };
        self.command_of(sentence, number)
    }

    // The command that a sentence requests.
    fn command_of(&mut self, sentence: Sentence<'_>, number: u64) -> Result<Command, ScriptRefusal>
        requires { IsSayableInScript (is_some self.old.states) (said sentence) }
        ensures asked { IfOk result (λ x.
            AsksFor self.old.states self.old.standing (said sentence.entry) x self.new.standing) }
        ensures refused { IfErr result (IsRefusalOf
            (AtLine number (IsFaultyLine self.old.states self.old.standing (said sentence.entry)))) }
        ensures states { self.new.states ≡ self.old.states }
    {
        match sentence {
            Sentence::Step(count) => Ok(Command::Step(count)),
            Sentence::Back(count) => Ok(Command::Back(count)),
            Sentence::Go(count) => Ok(Command::Go(count)),
            Sentence::Rev(count) => Ok(Command::Rev(count)),
            Sentence::BreakState { label, name } => self.break_state(label, name, number),
            Sentence::BreakElement { label, element } => self.break_element(label, element, number),
            Sentence::BreakLine {
                label,
                element,
                line,
            } => self.break_line(label, element, line, number),
            Sentence::Drop(label) => self.drop_label(label, number),
            Sentence::View => Ok(Command::View),
        }
    }

    // A breakpoint at the moments of a state.
    fn break_state(
        &mut self,
        label: &[u8],
        name: &[u8],
        number: u64,
    ) -> Result<Command, ScriptRefusal>
        requires form { is_label label.now ≡ true }
        requires named { is_some self.old.states ≡ true }
        ensures asked { IfOk result (λ x.
            AsksFor self.old.states self.old.standing (BreakState label.now name.now) x self.new.standing) }
        ensures refused { IfErr result (IsRefusalOf
            (AtLine number (IsFaultyLine self.old.states self.old.standing (BreakState label.now name.now)))) }
        ensures states { self.new.states ≡ self.old.states }
    {
        let Some(state) = self.find_state(name)? else {
            return Err(ScriptRefusal::NoState { line: number });
        };
        if self.standing.contains(label) {
            return Err(ScriptRefusal::SameBreak { line: number });
        }
        let label = self.new_label(label)?;
        Ok(Command::BreakState { label, state })
    }

    // The number of the state with a name, if there is one.
    fn find_state(&mut self, name: &[u8]) -> Result<Option<u32>, NoMemory>
        requires { is_some self.old.states ≡ true }
        ensures found { IfOk result (λ found. MatchOption found (¬ Contains (state_names self.old.states) name.now)
            (λ number. slice_get (state_names self.old.states) number ≡ Some name.now)) }
        ensures states { self.new.states ≡ self.old.states }
        ensures standing { self.new.standing ≡ self.old.standing }
    {
        match &mut self.states {
            Some(states) => states.find(name),
            None => Ok(None),
        }
    }

    // A breakpoint where the signal enters an element.
    fn break_element(
        &mut self,
        label: &[u8],
        element: u64,
        number: u64,
    ) -> Result<Command, ScriptRefusal>
        requires { is_label label.now ≡ true }
        ensures asked { IfOk result (λ x.
            AsksFor self.old.states self.old.standing (BreakElement label.now element) x self.new.standing) }
        ensures refused { IfErr result (IsRefusalOf
            (AtLine number (IsFaultyLine self.old.states self.old.standing (BreakElement label.now element)))) }
        ensures states { self.new.states ≡ self.old.states }
    {
        if self.standing.contains(label) {
            return Err(ScriptRefusal::SameBreak { line: number });
        }
        let label = self.new_label(label)?;
        Ok(Command::BreakElement { label, element })
    }

    // A breakpoint where the signal enters a port of an element.
    fn break_line(
        &mut self,
        label: &[u8],
        element: u64,
        line: u32,
        number: u64,
    ) -> Result<Command, ScriptRefusal>
        requires { is_label label.now ≡ true }
        ensures asked { IfOk result (λ x.
            AsksFor self.old.states self.old.standing (BreakLine label.now element line) x self.new.standing) }
        ensures refused { IfErr result (IsRefusalOf
            (AtLine number (IsFaultyLine self.old.states self.old.standing (BreakLine label.now element line)))) }
        ensures states { self.new.states ≡ self.old.states }
    {
        if self.standing.contains(label) {
            return Err(ScriptRefusal::SameBreak { line: number });
        }
        let label = self.new_label(label)?;
        Ok(Command::BreakLine {
            label,
            element,
            line,
        })
    }

    // The removal of a breakpoint.
    fn drop_label(&mut self, label: &[u8], number: u64) -> Result<Command, ScriptRefusal>
        requires { is_label label.now ≡ true }
        ensures asked { IfOk result (λ x.
            AsksFor self.old.states self.old.standing (Drop label.now) x self.new.standing) }
        ensures refused { IfErr result (IsRefusalOf
            (AtLine number (IsFaultyLine self.old.states self.old.standing (Drop label.now)))) }
        ensures states { self.new.states ≡ self.old.states }
    {
        if !self.standing.contains(label) {
            return Err(ScriptRefusal::NoBreak { line: number });
        }
        self.standing.remove(label);
        let label = Label::new(self.alloc, label)?;
        Ok(Command::Drop(label))
    }

    // A new label: it is in use from now on.
    fn new_label(&mut self, label: &[u8]) -> Result<Label, NoMemory>
        requires form { is_label label.now ≡ true }
        requires new { stands label.now self.old.standing ≡ false }
        ensures label { IfOk result (λ made. made ≡ label.now) }
        ensures standing { OnOk result (self.new.standing ≡ self.old.standing ++ label.now ∷ []) }
        ensures states { self.new.states ≡ self.old.states }
    {
        self.standing.add(label)?;
        Label::new(self.alloc, label)
    }
}
