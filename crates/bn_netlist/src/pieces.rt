//! A configuration text received in pieces. A faulty text is received to its end as well.

ghost use Rattle.std.specs.Prelude.{◌≡◌, ◌≢◌, ℕ, List, ◌++◌, [], IfOk, IfErr};
ghost use Rattle.bn_netlist_laws.specs.Spelling.{Spelled};
ghost use Rattle.bn_netlist.specs.NetText.{IsTextRefusal};
ghost use Rattle.bn_netlist.specs.Coming.{HaveCome, ComeSome};

use crate::from_wires::FromWires;
use crate::front::Front;
use crate::line_refusal::NetlistRefusal;
use bn_lists::NoMemory;
use std::alloc::Global;

/// A configuration text received in pieces. Of a faulty text only the fault is stored.
#[derive(Drop)]
pub(crate) enum Pieces {
    /// No fault so far.
    Open(Front),
    /// The text has this fault, whatever follows.
    Refused(NetlistRefusal),
}

impl Pieces {
    /// A text of which no byte has been received.
    pub(crate) fn new(alloc: Global) -> Result<Pieces, NoMemory>
        ensures { IfOk result (λ p. HaveCome p []) }
    {
        let Ok(front) = Front::new(alloc) else {
            return Err(NoMemory);
        };
        Ok(Pieces::Open(front))
    }

    /// Takes the next piece of the text.
    pub(crate) fn push(self, alloc: Global, piece: &[u8]) -> Result<Pieces, NoMemory>
        requires { ComeSome self }
        ensures { IfOk result (λ next. (text : List ℕ) → HaveCome self text → HaveCome next (text ++ piece.now)) }
    {
        match self {
            Pieces::Open(front) => match front.push(alloc, piece) {
                Ok(next) => Ok(Pieces::Open(next)),
                Err(NetlistRefusal::NoMemory) => Err(NoMemory),
                Err(refusal) => Ok(Pieces::Refused(refusal)),
            },
            Pieces::Refused(refusal) => Ok(Pieces::Refused(refusal)),
        }
    }

    /// The configuration of a text that ends here.
    pub(crate) fn finish<C: FromWires>(self, alloc: Global) -> Result<C, NetlistRefusal>
        requires { ComeSome self }
        ensures spelled { IfOk result (λ c. (text : List ℕ) → HaveCome self text
            → Spelled (C.version c) (C.spelling c) text) }
        ensures refused { IfErr result (λ r. (text : List ℕ) → HaveCome self text → IsTextRefusal text r) }
    {
        match self {
            Pieces::Open(front) => front.finish(alloc),
            Pieces::Refused(refusal) => Err(refusal),
        }
    }
}
