//! Laws of the definitions. The function does nothing: its contract is the laws.
ghost use Rattle.bn_qtable.specs.Laws.{Laws};

/// Laws of the definitions, a named field each.
pub fn qtable_laws()
    ensures { Laws }
{}
