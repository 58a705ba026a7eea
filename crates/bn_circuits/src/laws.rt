//! Laws on the definitions alone. The function does nothing: its contract is the laws.
ghost use Rattle.bn_circuits.specs.Laws.{Laws};

/// Laws on the definitions alone, a named field each.
pub fn circuits_laws()
    ensures { Laws }
{}
