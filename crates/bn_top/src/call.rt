//! The top call.

ghost use Rattle.std.specs.Prelude.{◌≡◌, map, IfSome};
ghost use Rattle.std.specs.String.{string_bytes};
ghost use Rattle.bn_reply.specs.Codes.{IsAnswer};
ghost use Rattle.bn_headline.specs.MachineHeadline.{MachineHeadline, MachineHeadlineWithin};
ghost use Rattle.bn_headline.specs.CircuitHeadline.{CircuitHeadline};
ghost use Rattle.bn_headline.specs.CommandHeadlines.{BackCommand, BennettCommand, MachineCommand, StepCommand};
ghost use Rattle.bn_headline.specs.FoundCircuitHeadline.{FoundCircuitHeadline};
ghost use Rattle.bn_headline.specs.FoundMachineHeadline.{FoundMachineHeadline};
ghost use Rattle.bn_headline.specs.Generated.{GeneratedHeadline};
ghost use Rattle.bn_headline.specs.FoundHeadline.{TellsFoundWindow};
ghost use Rattle.bn_reply.specs.Outside.{outside};
ghost use Rattle.bn_top.specs.Outside.{NeedNoInput};
ghost use Rattle.bn_top.specs.QuadHeadlines.{BuildHeadline, DriveCircuitHeadline, DriveHeadline, InverseCommand};
ghost use Rattle.bn_top.specs.Clauses.{CallEnds};

use crate::answering::answer_words;
use bn_circuits::Watch;
use bn_io::{Sink, Source};
use bn_reply::Status;
use std::alloc::Global;

/// Runs the command that the arguments of a command line name: reads the input from the source if the arguments have a
/// form and the command reads an input, writes the text to the sink, and returns the status. For `step`, `back`,
/// `run`, `drive` and `generate`, the place of the signal after each element step is reported to the watch.
pub fn workbench<S: Source, K: Sink, W: Watch>(
    alloc: Global,
    words: &Vec<String>,
    source: &mut S,
    sink: &mut K,
    watch: &mut W,
) -> Status
    // The headline: the answer to `run` reports how the machine's own bounded run ends.
    ensures headline { IsAnswer result → IfSome (S.left source.old)
        (λ bytes. MachineHeadline (map string_bytes words.now.items) bytes result (K.taken sink.old)
        (K.taken sink.new)) }

    // The same with a greatest number of element steps.
    ensures headline_within { IsAnswer result → IfSome (S.left source.old)
        (λ bytes. MachineHeadlineWithin (map string_bytes words.now.items) bytes result (K.taken sink.old)
        (K.taken sink.new)) }

    // The headline by the circuit: the signal leaves by that exit in exactly its cost, and as many steps back restore
    // the start.
    ensures headline_circuit { IsAnswer result → IfSome (S.left source.old)
        (λ bytes. CircuitHeadline (map string_bytes words.now.items) bytes result (K.taken sink.old)
        (K.taken sink.new)) }

    // The headline for the automatic window: the window is the one that the machine's own bounded runs name.
    ensures found { IsAnswer result → IfSome (S.left source.old)
        (λ bytes. TellsFoundWindow (map string_bytes words.now.items) bytes result (K.taken sink.old)
        (K.taken sink.new)) }

    // The same by the machine alone: the elements, exit, steps and tapes in that window, or the number of elements of a
    // circuit that is too large.
    ensures found_machine { IsAnswer result → IfSome (S.left source.old)
        (λ bytes. FoundMachineHeadline (map string_bytes words.now.items) bytes result (K.taken sink.old)
        (K.taken sink.new)) }

    // The same by the circuit, which exists: the signal leaves by that exit in exactly its cost, and as many steps back
    // restore the start.
    ensures found_circuit { IsAnswer result → IfSome (S.left source.old)
        (λ bytes. FoundCircuitHeadline (map string_bytes words.now.items) bytes result (K.taken sink.old)
        (K.taken sink.new)) }

    // The headline of `generate`. It holds for every source.
    ensures generated { IsAnswer result →
        GeneratedHeadline (map string_bytes words.now.items) result (K.taken sink.old) (K.taken sink.new) }

    // What `machine` and `bennett` print for a table in standard form, and `step` and `back` for a text that spells a
    // configuration, each in its own terms.
    ensures machine { IsAnswer result → IfSome (S.left source.old)
        (λ bytes. MachineCommand (map string_bytes words.now.items) bytes result (K.taken sink.old)
        (K.taken sink.new)) }
    ensures bennett { IsAnswer result → IfSome (S.left source.old)
        (λ bytes. BennettCommand (map string_bytes words.now.items) bytes result (K.taken sink.old)
        (K.taken sink.new)) }
    ensures step { IsAnswer result → IfSome (S.left source.old)
        (λ bytes. StepCommand (map string_bytes words.now.items) bytes result (K.taken sink.old)
        (K.taken sink.new)) }
    ensures back { IsAnswer result → IfSome (S.left source.old)
        (λ bytes. BackCommand (map string_bytes words.now.items) bytes result (K.taken sink.old)
        (K.taken sink.new)) }

    // What `inverse` and `build` print for a table of quadruples.
    ensures inverse { IsAnswer result → IfSome (S.left source.old)
        (λ bytes. InverseCommand (map string_bytes words.now.items) bytes result (K.taken sink.old)
        (K.taken sink.new)) }
    ensures build { IsAnswer result → IfSome (S.left source.old)
        (λ bytes. BuildHeadline (map string_bytes words.now.items) bytes result (K.taken sink.old)
        (K.taken sink.new)) }

    // The headline of `drive`: the own run of a uniform machine of quadruples in its window ends, and the answer
    // reports how; and the same by the circuit.
    ensures drive { IsAnswer result → IfSome (S.left source.old)
        (λ bytes. DriveHeadline (map string_bytes words.now.items) bytes result (K.taken sink.old)
        (K.taken sink.new)) }
    ensures drive_circuit { IsAnswer result → IfSome (S.left source.old)
        (λ bytes. DriveCircuitHeadline (map string_bytes words.now.items) bytes result (K.taken sink.old)
        (K.taken sink.new)) }

    // How the call ends: what the sink received and the watch heard, what was read, and the counts of failures.
    ensures ends { CallEnds (map string_bytes words.now.items) result
        (outside (S.left source.old) (K.taken sink.old) (W.told watch.old) (S.faults source.old) (K.faults sink.old))
        (outside (S.left source.new) (K.taken sink.new) (W.told watch.new) (S.faults source.new) (K.faults sink.new)) }

    // The source is not read again after it has failed or has reported its end.
    ensures in_time { S.open source.old → S.overrun source.new → S.overrun source.old }

    // If the arguments need no input, the source does not change.
    ensures unread { NeedNoInput (map string_bytes words.now.items) → source.new ≡ source.old }
{
    answer_words(alloc, words.as_slice(), source, sink, watch)
}
