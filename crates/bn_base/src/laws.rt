//! The laws of this crate. The function does nothing: its contract is the laws.
ghost use Rattle.bn_base.specs.Laws.{Laws};

/// The laws of this crate, a named field each.
pub fn base_laws()
    ensures { Laws }
{}
