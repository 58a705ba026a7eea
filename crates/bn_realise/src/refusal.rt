//! Refusals of the calls of this crate.

use bn_lists::NoMemory;

/// Why a bank was not made.
#[derive(Clone, Copy, PartialEq, Eq, Debug)]
pub enum BankRefusal {
    /// The bank would have more than 4,194,304 elements.
    Elements {
        /// The number of elements that the bank would have: the number of states of the machine, times one more than
        /// its number of input ports.
        count: u64,
    },
    /// Memory ran out.
    NoMemory,
}

impl From<NoMemory> for BankRefusal {
    ghost use Rattle.std.specs.Prelude.{◌≡◌};
    ghost use Rattle.bn_realise.specs.declared.refusal.BankRefusal.TheVariants.{NoMemory};

    ghost from_gives = { λ _ refusal. refusal ≡ NoMemory };

    fn from(_want: NoMemory) -> BankRefusal {
        BankRefusal::NoMemory
    }
}
