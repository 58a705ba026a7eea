//! The laws of this crate. The function does nothing: its contract is the laws.
ghost use Rattle.bn_rlem.specs.Laws.{Laws};

/// The laws on numbered elements, each a named field.
pub fn rlem_laws()
    ensures { Laws }
{}
