//! The one path of every command, from its arguments to the text that it prints, with the match that names each command
//! once.

ghost use Rattle.std.specs.Prelude.{◌≡◌, ℕ, ◌+◌, ◌≤◌, Some, drop, length, map};
ghost use Rattle.std.specs.String.{string_bytes};
ghost use Rattle.bn_io.specs.Faults.{CountsUnless};
ghost use Rattle.bn_reply.specs.Outside.{outside};
ghost use Rattle.bn_reply.specs.Streams.{AnswerEnds, StreamEnds};
ghost use Rattle.bn_reply.specs.declared.limits.TheConstants.{MOST_INPUT_BYTES};
ghost use Rattle.bn_words.specs.Requests.{IsAllowed, of_configuration, of_whole};
ghost use Rattle.bn_top.specs.Answers.{Replies};
ghost use Rattle.bn_top.specs.Clauses.{CallEnds};
ghost use Rattle.bn_top.specs.Outside.{NeedNoInput};

use bn_circuits::Watch;
use bn_headline::reply_run_auto;
use bn_io::{Input, ReadRefusal, Sink, piece_size, read_whole};
use bn_reply::{MOST_INPUT_BYTES, Status, finish, give_reply, tell_long_input, tell_read_fault};
use bn_reply_behaviours::{answer_behaviour, answer_crossings};
use bn_reply_boards::{answer_compile, reply_generate, reply_run};
use bn_reply_builds::{answer_build, reply_drive};
use bn_reply_circuits::{
    answer_back, answer_migrate, answer_mirror, answer_plan, answer_realise, answer_step,
    reply_element, reply_farm,
};
use bn_reply_equal::reply_equal;
use bn_reply_erase::{reply_erase, reply_erase_run};
use bn_reply_layout::answer_layout;
use bn_reply_looks::{reply_look, reply_play};
use bn_reply_machines::{
    reply_bennett, reply_check, reply_inverse, reply_machine, reply_reversible, reply_standard,
};
use bn_reply_rooms::reply_room;
use bn_reply_traces::{answer_moments, answer_three_moments, answer_trace};
use bn_reply_views::{reply_session, reply_view};
use bn_reply_walks::reply_walk;
use bn_reply_windows::reply_window;
use bn_words::{ConfigurationRequest, Request, WholeRequest, read_words};
use std::alloc::Global;

// Runs the command of a command line: reads from the input what the command needs, and writes the answer to the sink.
pub(crate) fn answer_words<I: Input, K: Sink, W: Watch>(
    alloc: Global,
    words: &[String],
    input: &mut I,
    sink: &mut K,
    watch: &mut W,
) -> Status
    ensures ends { CallEnds (map string_bytes words.now) result
        (outside (I.left input.old) (K.taken sink.old) (W.told watch.old) (I.faults input.old) (K.faults sink.old))
        (outside (I.left input.new) (K.taken sink.new) (W.told watch.new) (I.faults input.new) (K.faults sink.new)) }
    ensures in_time { I.open input.old → I.overrun input.new → I.overrun input.old }
    ensures unread { NeedNoInput (map string_bytes words.now) → input.new ≡ input.old }
{
    match read_words(words) {
        Some(Request::OnConfiguration(asked)) => {
            answer_configuration(alloc, &asked, input, sink, watch)
        }
        Some(Request::OnWhole(asked)) => answer_whole(alloc, &asked, input, sink, watch),
        Some(Request::Generate { increments }) => {
            give_reply(sink, reply_generate(alloc, increments, watch))
        }
        Some(Request::Element { lines, number }) => {
            give_reply(sink, reply_element(alloc, lines, number))
        }
        None => finish(sink, b"usage\n", Status::Usage),
    }
}

// Runs a command on a configuration text, which is read in pieces.
fn answer_configuration<I: Input, K: Sink, W: Watch>(
    alloc: Global,
    asked: &ConfigurationRequest<'_>,
    input: &mut I,
    sink: &mut K,
    watch: &mut W,
) -> Status
    requires { IsAllowed (of_configuration asked.now) }
    ensures ends { StreamEnds (Replies (of_configuration asked.now)) result
        (outside (I.left input.old) (K.taken sink.old) (W.told watch.old) (I.faults input.old) (K.faults sink.old))
        (outside (I.left input.new) (K.taken sink.new) (W.told watch.new) (I.faults input.new) (K.faults sink.new)) }
    ensures in_time { I.open input.old → I.overrun input.new → I.overrun input.old }
{
    match *asked {
        ConfigurationRequest::Step { most_steps } => {
            answer_step(alloc, most_steps, input, sink, watch)
        }
        ConfigurationRequest::Back { most_steps } => {
            answer_back(alloc, most_steps, input, sink, watch)
        }
        ConfigurationRequest::Plan => answer_plan(alloc, input, sink),
        ConfigurationRequest::Migrate => answer_migrate(alloc, input, sink),
        ConfigurationRequest::Mirror => answer_mirror(alloc, input, sink),
        ConfigurationRequest::Behaviour {
            most_states,
            most_steps,
            names,
        } => answer_behaviour(alloc, most_states, most_steps, names, input, sink),
        ConfigurationRequest::Crossings {
            most_states,
            most_steps,
            names,
        } => answer_crossings(alloc, most_states, most_steps, names, input, sink),
    }
}

// Runs a command on a whole input: on the bytes that are lent, or on those that are read to the end.
fn answer_whole<I: Input, K: Sink, W: Watch>(
    alloc: Global,
    asked: &WholeRequest<'_>,
    input: &mut I,
    sink: &mut K,
    watch: &mut W,
) -> Status
    requires { IsAllowed (of_whole asked.now) }
    ensures ends { StreamEnds (Replies (of_whole asked.now)) result
        (outside (I.left input.old) (K.taken sink.old) (W.told watch.old) (I.faults input.old) (K.faults sink.old))
        (outside (I.left input.new) (K.taken sink.new) (W.told watch.new) (I.faults input.new) (K.faults sink.new)) }
    ensures in_time { I.open input.old → I.overrun input.new → I.overrun input.old }
{
    let Some(bytes) = input.rest() else {
        return answer_read(alloc, asked, input, sink, watch);
    };
    let count = piece_size(MOST_INPUT_BYTES, bytes.len());
    let status = answer_lent(alloc, asked, bytes, sink, watch);
    input.take_lent(count);
    status
}

// Runs a command on bytes that are lent, which are all that the input has left. Of a longer input it takes one byte
// more than the limit.
fn answer_lent<K: Sink, W: Watch>(
    alloc: Global,
    asked: &WholeRequest<'_>,
    bytes: &[u8],
    sink: &mut K,
    watch: &mut W,
) -> Status
    requires { IsAllowed (of_whole asked.now) }
    ensures { (reads : ℕ) → StreamEnds (Replies (of_whole asked.now)) result
        (outside (Some bytes.now) (K.taken sink.old) (W.told watch.old) reads (K.faults sink.old))
        (outside (Some (drop (MOST_INPUT_BYTES + 1) bytes.now)) (K.taken sink.new) (W.told watch.new) reads
        (K.faults sink.new)) }
{
    if bytes.len() as u64 > MOST_INPUT_BYTES {
        return tell_long_input(sink);
    }
    answer_bytes(alloc, asked, bytes, sink, watch)
}

// Runs a command on an input that is first read to its end.
fn answer_read<I: Input, K: Sink, W: Watch>(
    alloc: Global,
    asked: &WholeRequest<'_>,
    input: &mut I,
    sink: &mut K,
    watch: &mut W,
) -> Status
    requires { IsAllowed (of_whole asked.now) }
    ensures ends { StreamEnds (Replies (of_whole asked.now)) result
        (outside (I.left input.old) (K.taken sink.old) (W.told watch.old) (I.faults input.old) (K.faults sink.old))
        (outside (I.left input.new) (K.taken sink.new) (W.told watch.new) (I.faults input.new) (K.faults sink.new)) }
    ensures in_time { I.open input.old → I.overrun input.new → I.overrun input.old }
{
    match read_whole(alloc, input, MOST_INPUT_BYTES) {
        Ok(bytes) => answer_bytes(alloc, asked, bytes.as_slice(), sink, watch),
        Err(ReadRefusal::ReadFault) => tell_read_fault(sink),
        Err(ReadRefusal::TooLong) => tell_long_input(sink),
        Err(ReadRefusal::NoMemory) => Status::NoMemory,
    }
}

// Runs a command on these bytes, which are a whole input within the limit.
fn answer_bytes<K: Sink, W: Watch>(
    alloc: Global,
    asked: &WholeRequest<'_>,
    bytes: &[u8],
    sink: &mut K,
    watch: &mut W,
) -> Status
    requires allowed { IsAllowed (of_whole asked.now) }
    requires short { length bytes.now ≤ MOST_INPUT_BYTES }
    ensures ends { AnswerEnds (Replies (of_whole asked.now) bytes.now) result (K.taken sink.old) (K.taken sink.new)
        (K.faults sink.old) (K.faults sink.new) (W.told watch.old) (W.told watch.new) }
    ensures later { CountsUnless (result ≡ Status.WriteFault) (K.faults sink.old) (K.faults sink.new) }
{
    match *asked {
        WholeRequest::Check => give_reply(sink, reply_check(alloc, bytes)),
        WholeRequest::Machine { word, most_steps } => {
            give_reply(sink, reply_machine(alloc, word, most_steps, bytes))
        }
        WholeRequest::Trace { word, most_steps } => {
            answer_trace(alloc, word, most_steps, bytes, sink)
        }
        WholeRequest::Moments { word, most_steps } => {
            answer_moments(alloc, word, most_steps, bytes, sink)
        }
        WholeRequest::ThreeMoments {
            first,
            second,
            third,
            most_steps,
        } => answer_three_moments(alloc, first, second, third, most_steps, bytes, sink),
        WholeRequest::Reversible => give_reply(sink, reply_reversible(alloc, bytes)),
        WholeRequest::Inverse => give_reply(sink, reply_inverse(alloc, bytes)),
        WholeRequest::Bennett => give_reply(sink, reply_bennett(alloc, bytes)),
        WholeRequest::Realise { state, line } => answer_realise(alloc, state, line, bytes, sink),
        WholeRequest::Standard => give_reply(sink, reply_standard(alloc, bytes)),
        WholeRequest::Compile { word, window } => answer_compile(alloc, word, &window, bytes, sink),
        WholeRequest::Layout { word, window } => answer_layout(alloc, word, &window, bytes, sink),
        WholeRequest::Build { words, window } => answer_build(alloc, &words, &window, bytes, sink),
        WholeRequest::Drive {
            words,
            window,
            most_steps,
        } => give_reply(
            sink,
            reply_drive(alloc, &words, &window, most_steps, bytes, watch),
        ),
        WholeRequest::Run {
            word,
            window,
            most_steps,
        } => give_reply(
            sink,
            reply_run(alloc, word, &window, most_steps, bytes, watch),
        ),
        WholeRequest::RunAuto { word } => {
            give_reply(sink, reply_run_auto(alloc, word, bytes, watch))
        }
        WholeRequest::View {
            word,
            window,
            most_steps,
        } => give_reply(sink, reply_view(alloc, word, &window, most_steps, bytes)),
        WholeRequest::Session { word, window } => {
            give_reply(sink, reply_session(alloc, word, &window, bytes))
        }
        WholeRequest::Look {
            words,
            window,
            most_steps,
        } => give_reply(sink, reply_look(alloc, &words, &window, most_steps, bytes)),
        WholeRequest::Play { words, window } => {
            give_reply(sink, reply_play(alloc, &words, &window, bytes))
        }
        WholeRequest::Farm => give_reply(sink, reply_farm(alloc, bytes)),
        WholeRequest::Erase => give_reply(sink, reply_erase(alloc, bytes)),
        WholeRequest::EraseRun { word, most_steps } => {
            give_reply(sink, reply_erase_run(alloc, word, most_steps, bytes))
        }
        WholeRequest::Window { word, most_steps } => {
            give_reply(sink, reply_window(alloc, word, most_steps, bytes))
        }
        WholeRequest::Equal { state, other } => {
            give_reply(sink, reply_equal(alloc, state, other, bytes))
        }
        WholeRequest::Room { words, most_steps } => {
            give_reply(sink, reply_room(alloc, &words, most_steps, bytes))
        }
        WholeRequest::Walk => give_reply(sink, reply_walk(alloc, bytes)),
    }
}
