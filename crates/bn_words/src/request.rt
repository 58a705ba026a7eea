//! What a command line asks for.

ghost use Rattle.std.specs.Prelude.{◌≡◌};
ghost use Rattle.bn_words.specs.Requests.{reads_input, request_of};

use bn_behaviour::PortNames;
use bn_network_assembly::Windows;
use bn_qtable::TapeWords;

/// What the arguments of a command line ask for, by what the command does with an input. An input word W follows the
/// byte `=`, and a window is four numbers l1 r1 n r3: tape 1 reaches from -l1 to r1, the history holds n steps, and the
/// output tape reaches from 0 to r3.
#[derive(Clone, Copy, Debug)]
pub enum Request<'a> {
    /// A command that reads a configuration text, in pieces.
    OnConfiguration(ConfigurationRequest<'a>),
    /// A command that needs its input whole.
    OnWhole(WholeRequest<'a>),
    /// `generate k`: the run of the machine of k increments. It reads no input.
    Generate {
        /// The number of increments.
        increments: u32,
    },
    /// `element k n`: the table of the reversible element with one bit of memory, k lines and number n. It reads no
    /// input.
    Element {
        /// The number of lines.
        lines: u32,
        /// The number of the element.
        number: u64,
    },
}

/// A command on a configuration text, a variant for each form.
#[derive(Clone, Copy, Debug)]
pub enum ConfigurationRequest<'a> {
    /// `step E`: at most E steps of a circuit.
    Step {
        /// The greatest number of steps.
        most_steps: u64,
    },
    /// `back E`: at most E steps back.
    Back {
        /// The greatest number of steps.
        most_steps: u64,
    },
    /// `plan`: the floor plan of a circuit, with the least number of tracks.
    Plan,
    /// `migrate`: a configuration text in version 2.
    Migrate,
    /// `mirror`: the inverse circuit, whose steps are the steps back of the first.
    Mirror,
    /// `behaviour n E` and `behaviour n E :IN :OUT`: the table of the sequential machine that a circuit is, of at most
    /// n states, by its free ports or by those that are named.
    Behaviour {
        /// The greatest number of states.
        most_states: u32,
        /// The greatest number of element steps of a crossing.
        most_steps: u64,
        /// The names of the ports, where they are named.
        names: Option<PortNames<'a>>,
    },
    /// `crossings` with the same arguments: each crossing with its ports and element steps.
    Crossings {
        /// The greatest number of states.
        most_states: u32,
        /// The greatest number of element steps of a crossing.
        most_steps: u64,
        /// The names of the ports, where they are named.
        names: Option<PortNames<'a>>,
    },
}

/// A command on a whole input, a variant for each form.
#[derive(Clone, Copy, Debug)]
pub enum WholeRequest<'a> {
    /// `check`: the verdict on standard form.
    Check,
    /// `machine =W n`: a machine's own run from the word W, of at most n steps.
    Machine {
        /// The letters of the word.
        word: &'a [u8],
        /// The greatest number of steps.
        most_steps: u32,
    },
    /// `trace =W n`: each configuration of that run.
    Trace {
        /// The letters of the word.
        word: &'a [u8],
        /// The greatest number of steps.
        most_steps: u32,
    },
    /// `moments =W n`: each configuration of the run of a machine of quadruples from the word W on tape 1, with at
    /// most n steps.
    Moments {
        /// The letters of the word.
        word: &'a [u8],
        /// The greatest number of steps.
        most_steps: u32,
    },
    /// `moments =W1 =W2 =W3 n`: each configuration of the run from a word on each tape.
    ThreeMoments {
        /// The letters of the word on tape 1.
        first: &'a [u8],
        /// Those on tape 2.
        second: &'a [u8],
        /// Those on tape 3.
        third: &'a [u8],
        /// The greatest number of steps.
        most_steps: u32,
    },
    /// `reversible`: the two verdicts on quadruples.
    Reversible,
    /// `inverse`: the table of the machine that undoes the steps of a machine of quadruples.
    Inverse,
    /// `bennett`: the table of Bennett's reversible machine.
    Bennett,
    /// `realise Q I`: the text of a bank in state Q with the signal at line I.
    Realise {
        /// The state, counted from 1.
        state: u32,
        /// The line, counted from 1.
        line: u32,
    },
    /// `standard`: a machine that starts on the first letter, brought into standard form.
    Standard,
    /// `compile =W l1 r1 n r3`: the text of the circuit of a machine and the word W in a window.
    Compile {
        /// The letters of the word.
        word: &'a [u8],
        /// The window.
        window: Windows,
    },
    /// `layout =W l1 r1 n r3`: the parts of the circuit of a machine and the word W in a window.
    Layout {
        /// The letters of the word.
        word: &'a [u8],
        /// The window.
        window: Windows,
    },
    /// `build W l1 r1 r2 r3` and `build W1 W2 W3 l1 r1 r2 r3`: the text of the circuit of a uniform machine of
    /// quadruples in a window, with a word on tape 1 or one on each tape. A word is letters after the byte `=`, or
    /// names of symbols, separated by commas, after the byte `:`.
    Build {
        /// The words on the tapes.
        words: TapeWords<'a>,
        /// The window.
        window: Windows,
    },
    /// `drive` with the same arguments and E: the run of that circuit to its exit, of at most E steps.
    Drive {
        /// The words on the tapes.
        words: TapeWords<'a>,
        /// The window.
        window: Windows,
        /// The greatest number of steps.
        most_steps: u64,
    },
    /// `run =W l1 r1 n r3` and `run =W l1 r1 n r3 E`: the run of that circuit to its exit, or of at most E steps.
    Run {
        /// The letters of the word.
        word: &'a [u8],
        /// The window.
        window: Windows,
        /// The greatest number of steps, if there is one.
        most_steps: Option<u64>,
    },
    /// `run =W auto`: the run of that circuit in the automatic window.
    RunAuto {
        /// The letters of the word.
        word: &'a [u8],
    },
    /// `view =W l1 r1 n r3 E`: every layer of that circuit after at most E steps.
    View {
        /// The letters of the word.
        word: &'a [u8],
        /// The window.
        window: Windows,
        /// The greatest number of steps.
        most_steps: u64,
    },
    /// `session =W l1 r1 n r3`: a script, which follows the table and a line `%`, run on that circuit.
    Session {
        /// The letters of the word.
        word: &'a [u8],
        /// The window.
        window: Windows,
    },
    /// `look` with the arguments of `drive`: every layer of the circuit of a uniform machine of quadruples after at
    /// most E steps.
    Look {
        /// The words on the tapes.
        words: TapeWords<'a>,
        /// The window.
        window: Windows,
        /// The greatest number of steps.
        most_steps: u64,
    },
    /// `play` with the arguments of `build`: a script, which follows the table and a line `%`, run on that circuit.
    Play {
        /// The words on the tapes.
        words: TapeWords<'a>,
        /// The window.
        window: Windows,
    },
    /// `farm`: several circuits under a schedule, and the schedule that undoes it.
    Farm,
    /// `erase`: the machine of two tables that leaves only its output.
    Erase,
    /// `erase =W n`: the run of that machine from the word W, of at most n steps.
    EraseRun {
        /// The letters of the word.
        word: &'a [u8],
        /// The greatest number of steps.
        most_steps: u32,
    },
    /// `window =W n`: the least window in which the circuit of a machine ends as the machine does from the word W,
    /// after at most n steps.
    Window {
        /// The letters of the word.
        word: &'a [u8],
        /// The greatest number of steps.
        most_steps: u32,
    },
    /// `room W n` and `room W1 W2 W3 n`: the least window in which the circuit of a uniform machine of quadruples ends
    /// as the machine does from these words, after at most n steps.
    Room {
        /// The words on the tapes.
        words: TapeWords<'a>,
        /// The greatest number of steps.
        most_steps: u32,
    },
    /// `walk`: a script, which follows a configuration text and a line `%`, run on that circuit.
    Walk,
    /// `equal Q R`: whether two sequential machines answer alike, from a state of each.
    Equal {
        /// The state of the first machine, counted from 1.
        state: u32,
        /// That of the second machine, counted from 1.
        other: u32,
    },
}

impl<'a> Request<'a> {
    /// Whether the command reads an input.
    pub fn reads_input(&self) -> bool
        ensures { result ≡ reads_input (request_of self.now) }
    {
        !matches!(self, Request::Generate { .. } | Request::Element { .. })
    }
}
