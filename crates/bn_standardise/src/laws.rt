//! Laws on the machine in standard form. The function does nothing: its contract is the laws.
ghost use Rattle.bn_standardise.specs.Laws.{Laws};

/// Laws on the machine in standard form, a named field each.
pub fn standardise_laws()
    ensures { Laws }
{}
