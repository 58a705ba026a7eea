//! The reasons why a network is not assembled.

use bn_lists::NoMemory;

/// The reasons why `assemble` and `assemble_words` refuse; tested in this order.
#[derive(Clone, Copy, PartialEq, Eq, Debug)]
pub enum AssembleRefusal {
    /// The word of `assemble` is longer than the right side of tape 1.
    WordOutside {
        /// The number of the word's letters, the right side that it needs.
        needs: u32,
    },
    /// The flat circuit would have more than `MOST_ELEMENTS` elements.
    Elements {
        /// The number of elements that it would have.
        count: u64,
    },
    /// There is not enough memory.
    NoMemory,
}

impl From<NoMemory> for AssembleRefusal {
    ghost use Rattle.std.specs.Prelude.{◌≡◌};
    ghost use Rattle.bn_network_assembly.specs.declared.refusal.AssembleRefusal.TheVariants.{NoMemory};

    ghost from_gives = { λ _ refusal. refusal ≡ NoMemory };

    fn from(_want: NoMemory) -> AssembleRefusal {
        AssembleRefusal::NoMemory
    }
}
