//! Scripts, and how they are read.

ghost use Rattle.std.specs.Prelude.{IfOk, IfErr, Some, None};
ghost use Rattle.bn_session.specs.Scripts.{IsScript, IsFirstScriptFault, IsRefusalOf};

use crate::command::Command;
use crate::refusal::ScriptRefusal;
use crate::scope::Scope;
use crate::states::States;
use bn_base::Lines;
use bn_quad::QuadNames;
use std::alloc::Global;
use std::marker::Model;

/// A script: commands, one after another. A label that is set is new, and a label that is removed is in use. Contracts
/// see the list of the commands.
#[derive(Drop)]
pub struct Script {
    commands: Vec<Command>,
}

impl Model for Script {
    ghost use Rattle.std.specs.Prelude.{List, []};
    ghost use Rattle.bn_session.specs.Labels.{AreOrderly};
    ghost use Rattle.bn_session.specs.declared.command.Command.{Command};

    ghost Value = { List Command };

    ghost view = { λ s. s.commands.items };

    ghost invariant = { λ s. AreOrderly [] s.commands.items };
}

impl Script {
    ghost use Rattle.std.specs.Prelude.{◌≡◌, []};
    ghost use Rattle.bn_session.specs.Labels.{AreOrderly};

    /// The commands, in the order of their lines. Allocates no memory.
    pub fn commands(&self) -> &[Command]
        ensures commands { result.now ≡ self.now }
        ensures orderly { AreOrderly [] self.now }
    {
        self.commands.as_slice()
    }
}

/// Reads a script, one command a line, over a machine of quadruples with these names. The result is `Ok` exactly for a
/// script. A refusal names the first line with an error, counted from 1, and the first error of that line, in this
/// order: `Form` if the line has none of the forms or lacks its byte 10, `NoState` if no state has its name,
/// `SameBreak` if its label is already in use at that point of the script, and `NoBreak` if its label is not. (This
/// project's own definition.)
pub fn read_script(alloc: Global, bytes: &[u8], names: &QuadNames) -> Result<Script, ScriptRefusal>
    ensures read { IfOk result (λ script. IsScript (Some names.now.states) bytes.now script) }
    ensures refused { IfErr result (IsRefusalOf (IsFirstScriptFault (Some names.now.states) bytes.now)) }
{
    read_lines(alloc, bytes, Some(States::new(alloc, names)))
}

/// Reads a script for any circuit, which names ports of elements and no states. The result is `Ok` exactly for a
/// script. A refusal names the first line with an error and its first error, as that of `read_script` does; it is never
/// `NoState`. (This project's own definition.)
pub fn read_circuit_script(alloc: Global, bytes: &[u8]) -> Result<Script, ScriptRefusal>
    ensures read { IfOk result (λ script. IsScript None bytes.now script) }
    ensures refused { IfErr result (IsRefusalOf (IsFirstScriptFault None bytes.now)) }
{
    read_lines(alloc, bytes, None)
}

// Reads a script for these states.
fn read_lines(
    alloc: Global,
    bytes: &[u8],
    states: Option<States<'_>>,
) -> Result<Script, ScriptRefusal>
    ensures read { IfOk result (λ script. IsScript states.entry bytes.now script) }
    ensures refused { IfErr result (IsRefusalOf (IsFirstScriptFault states.entry bytes.now)) }
{
    let mut lines = Lines::new(bytes);
    let mut scope = Scope::new(alloc, states);
    let mut commands = Vec::new(alloc);
    while let Some(command) = scope.read_line(&mut lines, commands.len() as u64 + 1)? {
        if commands.push(command).is_err() {
            return Err(ScriptRefusal::NoMemory);
        }
    }
    Ok(Script { commands })
}
