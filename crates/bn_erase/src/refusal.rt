//! The reasons why `erase` refuses two machines.
use bn_lists::NoMemory;

/// The reasons why `erase` refuses two machines.
#[derive(Clone, Copy, PartialEq, Eq, Debug)]
pub enum EraseRefusal {
    /// The erasing machine would have `count` quadruples, more than 20,000.
    Many { count: u32 },
    /// There is not enough memory.
    NoMemory,
}

impl From<NoMemory> for EraseRefusal {
    ghost use Rattle.bn_erase.specs.declared.refusal.EraseRefusal.TheVariants as refusal;
    ghost use Rattle.std.specs.Prelude.{◌≡◌};

    ghost from_gives = { λ _ result. result ≡ refusal.NoMemory };

    fn from(_: NoMemory) -> EraseRefusal {
        EraseRefusal::NoMemory
    }
}
