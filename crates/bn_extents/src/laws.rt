//! The laws of this crate. The function does nothing: its contract is the laws.
ghost use Rattle.bn_extents.specs.Laws.{Laws};

/// The laws of this crate, a named field each.
pub fn extents_laws()
    ensures { Laws }
{}
