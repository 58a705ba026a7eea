//! The exploration of the circuit of a configuration text.

ghost use Rattle.std.specs.Prelude.{◌≡◌, ◌≢◌, ◌+◌, ◌≤◌, ◌∷◌, [], IfOk, codes, decimal, length, option_map};
ghost use Rattle.bn_circuits.specs.Circuits.{AreStates, IsCircuit};
ghost use Rattle.bn_circuits.specs.RotaryNets.{rotary_circuit};
ghost use Rattle.bn_behaviour.specs.PortNames.{port_names_of};
ghost use Rattle.bn_reply.specs.Lines.{line};
ghost use Rattle.bn_reply_behaviours.specs.ExploringReply.{CircuitAnswers, stop_line};
ghost use Rattle.bn_reply_behaviours.specs.Replying.{AreNamedBy, IsWritten, form_text};

use crate::form::Form;
use crate::lines::{Lines, lines_of_net};
use crate::text::{crossings_text, table_text};
use bn_behaviour::{
    BehaviourRefusal, Bounds, CountedMove, MOST_STATES, PortNames, Ports, find_behaviour,
};
use bn_circuits::{CLOCK, MOST_ELEMENTS, Net};
use bn_element::Rotary;
use bn_lists::NoMemory;
use bn_reply::{Reply, Status};
use std::alloc::Global;

/// The answer for a net in these states of its bars.
pub(crate) fn explore_net(
    alloc: Global,
    net: &Net<Rotary>,
    start: &[u32],
    names: Option<PortNames>,
    bounds: Bounds,
    form: Form,
) -> Result<Reply, NoMemory>
    requires few { length net.now.elements ≤ MOST_ELEMENTS }
    requires circuit { IsCircuit (rotary_circuit net.now) }
    requires start { AreStates (rotary_circuit net.now).tables start.now }
    requires some { 1 ≤ bounds.states }
    requires room { bounds.states ≤ MOST_STATES }
    requires clock { bounds.steps ≤ CLOCK }
    ensures { IfOk result (λ r. CircuitAnswers (rotary_circuit net.now) start.now (option_map port_names_of names.entry)
        bounds (form_text form) r.status r.text.items []) }
{
    let ports = match lines_of_net(alloc, net, names)? {
        Lines::Ports(ports) => ports,
        Lines::Refused(reply) => return Ok(reply),
    };
    match find_behaviour(alloc, net, start, &ports, bounds) {
        Ok(found) => write_entries(alloc, &ports, found.moves.as_slice(), form),
        Err(refusal) => refuse_behaviour(alloc, refusal),
    }
}

// The answer that prints these entries.
fn write_entries(
    alloc: Global,
    ports: &Ports,
    moves: &[CountedMove],
    form: Form,
) -> Result<Reply, NoMemory>
    requires { AreNamedBy ports.now moves.now }
    ensures { IfOk result (IsWritten (form_text form) ports.now moves.now) }
{
    if moves.is_empty() {
        return Ok(Reply {
            text: format!(in alloc; "machine: closed\n")?.into_bytes(),
            status: Status::Machine,
        });
    }
    let text = match form {
        Form::Table => table_text(alloc, moves)?,
        Form::Crossings => crossings_text(alloc, ports, moves)?,
    };
    Ok(Reply {
        text,
        status: Status::Done,
    })
}

// The answer that the exploration has stopped.
fn refuse_behaviour(alloc: Global, refusal: BehaviourRefusal) -> Result<Reply, NoMemory>
    ensures status { IfOk result (λ r. r.status ≡ Status.Inside) }
    ensures text { IfOk result (λ r. r.text.items ≡ stop_line refusal) }
    ensures memory { IfOk result (λ _. refusal ≢ BehaviourRefusal.NoMemory) }
{
    match refusal {
        BehaviourRefusal::More { state, line } => stop_at(alloc, "more", state, line),
        BehaviourRefusal::Running { state, line } => stop_at(alloc, "running", state, line),
        BehaviourRefusal::NoMemory => Err(NoMemory),
    }
}

// The line of the pair at which an exploration stops.
fn stop_at(alloc: Global, word: &str, state: u32, input: u32) -> Result<Reply, NoMemory>
    ensures status { IfOk result (λ r. r.status ≡ Status.Inside) }
    ensures text { IfOk result (λ r. r.text.items ≡ line (word.now ∷ codes " " ∷ decimal (state + 1) ∷ codes " "
        ∷ decimal (input + 1) ∷ [])) }
{
    let state = u64::from(state) + 1;
    let input = u64::from(input) + 1;
    Ok(Reply {
        text: format!(in alloc; "{word} {state} {input}\n")?.into_bytes(),
        status: Status::Inside,
    })
}
