//! The laws of this crate. The function does nothing: its contract is the laws.
ghost use Rattle.bn_erase_laws.specs.Laws.{Laws};

/// The laws of this crate, each a named field of `Laws`.
pub fn erase_laws()
    ensures { Laws }
{}
