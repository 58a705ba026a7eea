//! How a script is played.

ghost use Rattle.std.specs.Prelude.{◌≡◌, ◌⊎◌, ◌++◌, ◌∷◌, [], false, codes, OnOk, OnErr};
ghost use Rattle.bn_board.specs.Flattened.{IsBoardKept, IsSameBoard};
ghost use Rattle.bn_session.specs.Labels.{stands, IsOrderly};
ghost use Rattle.bn_session.specs.Breakpoints.{breakpoint, labels_of};
ghost use Rattle.bn_session.specs.Plays.{session, label_line};
ghost use Rattle.bn_session.specs.Boards.{IsPlayed, IsPlayedFrom, IsStopped, IsStoppedFrom, IsOnePlayed, IsOneLeft};

use crate::breaks::Breaks;
use crate::command::Command;
use crate::condition::Condition;
use crate::lines::{write_label, write_place};
use crate::playable::Playable;
use crate::script::Script;
use crate::shows::Shows;
use crate::walk::{go, named};
use bn_board::Board;
use bn_lists::NoMemory;
use bn_packed::Direction;
use std::alloc::Global;

/// Plays a script on the circuit of a machine, from no breakpoint, and appends its answer: a line for each command
/// except the views, for which `shows` appends a text. After `NoMemory` either nothing has changed, or the script was
/// left within a command: the circuit is at the configuration after this command, and `out` has grown by the answers
/// to the commands before it and a prefix of the answer to this one. The contract also states what holds of every
/// circuit afterwards. (This project's own definition.)
pub fn play<W: Shows>(
    alloc: Global,
    board: &mut Board,
    script: &Script,
    shows: &W,
    out: &mut Vec<u8>,
) -> Result<(), NoMemory>
    requires { W.allows shows.now board.old }
    ensures played { OnOk result (IsPlayed (W.text shows.now) board.old script.now board.new.config
        out.old.items out.new.items) }
    ensures stopped { OnErr result (((board.new ≡ board.old) × (out.new.items ≡ out.old.items))
        ⊎ IsStopped (W.text shows.now) board.old script.now board.new.config out.old.items out.new.items) }
    ensures same { IsSameBoard board.old board.new }
    ensures kept { IsBoardKept board.old }
{
    let elements = board.len();
    play_on(alloc, board, elements, script, shows, out)
}

/// Plays a script on any circuit, as `play` does. `elements` is the number of its elements, for a table of breakpoints
/// with an entry for each.
pub fn play_on<W, C: Playable<W>>(
    alloc: Global,
    circuit: &mut C,
    elements: u32,
    script: &Script,
    writer: &W,
    out: &mut Vec<u8>,
) -> Result<(), NoMemory>
    requires { C.allows circuit.old writer.now }
    ensures played { OnOk result (IsPlayedFrom (C.circuit circuit.old) (C.moment circuit.old)
        (C.shown circuit.old writer.now) (C.config circuit.old) script.now (C.config circuit.new) out.old.items
        out.new.items) }
    ensures stopped { OnErr result (((circuit.new ≡ circuit.old) × (out.new.items ≡ out.old.items))
        ⊎ IsStoppedFrom (C.circuit circuit.old) (C.moment circuit.old) (C.shown circuit.old writer.now)
        (C.config circuit.old) script.now (C.config circuit.new) out.old.items out.new.items) }
    ensures same { C.same circuit.old circuit.new }
{
    let mut breaks = Breaks::new(alloc, elements)?;
    for command in script.commands() {
        play_command(alloc, circuit, &mut breaks, command, writer, out)?;
    }
    Ok(())
}

// Plays one command.
fn play_command<W, C: Playable<W>>(
    alloc: Global,
    circuit: &mut C,
    breaks: &mut Breaks,
    command: &Command,
    writer: &W,
    out: &mut Vec<u8>,
) -> Result<(), NoMemory>
    requires allowed { C.allows circuit.old writer.now }
    requires orderly { IsOrderly (labels_of breaks.old) command.now }
    ensures played { OnOk result (IsOnePlayed (C.circuit circuit.old) (C.moment circuit.old)
        (C.shown circuit.old writer.now) (session (C.config circuit.old) breaks.old) command.now
        (session (C.config circuit.new) breaks.new) out.old.items out.new.items) }
    ensures left { OnErr result (IsOneLeft (C.circuit circuit.old) (C.moment circuit.old)
        (C.shown circuit.old writer.now) (session (C.config circuit.old) breaks.old) command.now
        (C.config circuit.new) out.old.items out.new.items) }
    ensures same { C.same circuit.old circuit.new }
{
    match command {
        Command::Step(count) => {
            circuit.run(Direction::Forward, *count);
            write_place::<W, C>(alloc, circuit, None, out)
        }
        Command::Back(count) => {
            circuit.run(Direction::Backward, *count);
            write_place::<W, C>(alloc, circuit, None, out)
        }
        Command::Go(count) => {
            let steps = circuit.steps();
            go::<W, C>(circuit, breaks, Direction::Forward, *count);
            write_place::<W, C>(alloc, circuit, named::<W, C>(circuit, breaks, steps), out)
        }
        Command::Rev(count) => {
            let steps = circuit.steps();
            go::<W, C>(circuit, breaks, Direction::Backward, *count);
            write_place::<W, C>(alloc, circuit, named::<W, C>(circuit, breaks, steps), out)
        }
        Command::BreakState { label, state } => {
            let condition = Condition::AtState(*state);
            set_break(alloc, breaks, label.as_slice(), condition, out)
        }
        Command::BreakElement { label, element } => {
            let condition = Condition::AtElement(*element);
            set_break(alloc, breaks, label.as_slice(), condition, out)
        }
        Command::BreakLine {
            label,
            element,
            line,
        } => {
            let condition = Condition::AtLine {
                element: *element,
                line: *line,
            };
            set_break(alloc, breaks, label.as_slice(), condition, out)
        }
        Command::Drop(label) => {
            breaks.remove(label.as_slice());
            write_label(alloc, b"drop ", label.as_slice(), out)
        }
        Command::View => circuit.show(alloc, writer, out),
    }
}

// Sets a breakpoint with a label that is new, and appends its line. After `NoMemory` nothing was appended.
fn set_break(
    alloc: Global,
    breaks: &mut Breaks,
    label: &[u8],
    condition: Condition,
    out: &mut Vec<u8>,
) -> Result<(), NoMemory>
    requires { stands label.now (labels_of breaks.old) ≡ false }
    ensures set { OnOk result (breaks.new ≡ breaks.old ++ breakpoint label.now condition ∷ []) }
    ensures ok { OnOk result (out.new.items ≡ out.old.items ++ label_line (codes "break ") label.now) }
    ensures err { OnErr result (out.new.items ≡ out.old.items) }
{
    breaks.add(label, condition)?;
    write_label(alloc, b"break ", label, out)
}
