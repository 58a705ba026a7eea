//! Sources of configuration texts.

ghost use Rattle.std.specs.Prelude.{◌≡◌, ◌<◌, length, Some, IfSome, slice_get};
ghost use Rattle.bn_circuits.specs.Circuits.{target};

use bn_circuits::{Line, Place};
use bn_netlist_laws::Version;

/// The source of a configuration text: a net of rotary elements in a configuration, with the two ports that the text
/// names and its version. Contracts see the version, and the meaning of the text. Elements and ports are counted from
/// 0. No call takes memory. (This project's own profile.)
pub trait Spellable {
    ghost use Rattle.bn_netlist_laws.specs.Spelling.{Spelling};
    ghost use Rattle.bn_netlist_laws.specs.declared.version.Version.{Version};

    /// The version of its text.
    ghost version: { Self → Version };

    /// The meaning of its text: the configuration that the text spells.
    ghost spelling: { Self → Spelling };

    /// The version of its text.
    fn version(&self) -> Version
        ensures { result ≡ version self.now };

    /// The number of elements.
    fn len(&self) -> u32
        ensures { result ≡ (spelling self.now).elements };

    /// The start, an input port.
    fn start(&self) -> Line
        ensures { result ≡ (spelling self.now).start };

    /// The end, an output port.
    fn end(&self) -> Line
        ensures { result ≡ (spelling self.now).end };

    /// The element steps made so far.
    fn steps(&self) -> u64
        ensures { result ≡ (spelling self.now).config.steps };

    /// Where the signal is.
    fn place(&self) -> Place
        ensures { result ≡ (spelling self.now).config.place };

    /// The state of an element's bar.
    fn bar(&self, element: u32) -> u32
        requires { element < length (spelling self.now).config.states }
        ensures { slice_get (spelling self.now).config.states element ≡ Some result };

    /// The input port to which the wire of this output port leads, `None` exactly if no wire leaves it.
    fn target(&self, from: Line) -> Option<Line>
        requires element { from.element < (spelling self.now).elements }
        requires line { from.line < 4 }
        ensures leads { result ≡ target (spelling self.now).wires from }
        ensures inside { IfSome result (λ to. to.element < (spelling self.now).elements) }
        ensures low { IfSome result (λ to. to.line < 4) };
}
