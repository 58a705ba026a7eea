//! The laws on the definitions. The function does nothing: its contract is the laws.
ghost use Rattle.bn_farm.specs.Laws.{Laws};

/// The laws on the definitions, each a named field.
pub fn farm_laws()
    ensures { Laws }
{}
