//! The circuits on which scripts are played.

ghost use Rattle.std.specs.Prelude.{◌≡◌, ◌<◌, OnOk, OnErr};
ghost use Rattle.std.specs.Bool.{OnFalse};
ghost use Rattle.bn_netlist_laws.specs.Sentences.{line_of_place};
ghost use Rattle.bn_packed.specs.Running.{run_along};
ghost use Rattle.bn_session.specs.Walks.{once_along};
ghost use Rattle.bn_session.specs.Boards.{Grows, GrowsByFront};

use bn_circuits::Place;
use bn_lists::NoMemory;
use bn_packed::Direction;
use std::alloc::Global;

/// A circuit in a configuration, on which scripts are played and which a writer `W` shows. It has six models: the
/// circuit; its configuration; the state of a machine whose moment a configuration is, if there is one; the texts by
/// which a writer may show a configuration; whether a writer can show the circuit; and whether two values are one
/// circuit in perhaps two configurations. (This project's own definition.)
pub trait Playable<W> {
    ghost use Rattle.std.specs.Prelude.{◌≡◌, ℕ, List, Option};
    ghost use Rattle.bn_circuits.specs.Circuits.{Circuit};
    ghost use Rattle.bn_circuits.specs.declared.config.Config.{Config};

    /// The circuit.
    ghost circuit: { Self → Circuit };

    /// The configuration.
    ghost config: { Self → Config };

    /// The state whose moment a configuration is, or none.
    ghost moment: { Self → Config → Option ℕ };

    /// Whether this is a text by which a writer may show a configuration.
    ghost shown: { Self → W → Config → List ℕ → Type 0 };

    /// Whether a writer can show the circuit.
    ghost allows: { Self → W → Type 0 };

    /// Whether the two are one circuit, perhaps in two configurations.
    ghost same: { Self → Self → Type 0 };

    /// The place of the signal: a port of a rotary element.
    fn place(&self) -> Place
        ensures place { result ≡ (config self.now).place }
        ensures line { (line_of_place result).line < 4 };

    /// The number of element steps that the configuration counts.
    fn steps(&self) -> u64
        ensures { result ≡ (config self.now).steps };

    /// The state whose moment the configuration is, counted from 0, or none.
    fn moment(&self) -> Option<u32>
        ensures { result ≡ moment self.now (config self.now) };

    /// Makes one element step in this direction. `false` only if none can be made, and then nothing has changed.
    fn step(&mut self, direction: Direction) -> bool
        ensures made { config self.new ≡ once_along direction (circuit self.old) (config self.old) }
        ensures kept { OnFalse result (config self.new ≡ config self.old) }
        ensures same { same self.old self.new };

    /// Makes at most `count` element steps in this direction: fewer only if no further step can be made.
    fn run(&mut self, direction: Direction, count: u64)
        ensures ran { config self.new ≡ run_along direction (circuit self.old) (config self.old) count }
        ensures same { same self.old self.new };

    /// Appends a text by which the writer shows the configuration. After `NoMemory` a prefix of one was appended.
    fn show(&self, alloc: Global, writer: &W, out: &mut Vec<u8>) -> Result<(), NoMemory>
        requires { allows self.now writer.now }
        ensures shown { OnOk result (Grows (shown self.now writer.now (config self.now)) out.old.items
            out.new.items) }
        ensures cut { OnErr result (GrowsByFront (shown self.now writer.now (config self.now)) out.old.items
            out.new.items) };

    /// One circuit is the same as itself, and what is the same as the same is the same.
    ghost itself: { (a : Self) → same a a };

    ghost again: { (a b c : Self) → same a b → same b c → same a c };

    /// The same circuit has the same model, the same moments, and what shows it shows the first.
    ghost circuits: { (a b : Self) → same a b → circuit b ≡ circuit a };

    ghost moments: { (a b : Self) → same a b → moment b ≡ moment a };

    ghost shows: { (a b : Self) (w : W) (c : Config) (text : List ℕ) → same a b → shown b w c text
        → shown a w c text };

    /// A writer that can show a circuit can show the same circuit.
    ghost keeps: { (a b : Self) (w : W) → same a b → allows a w → allows b w };
}
