//! Laws on leaps. The function does nothing: its contract is the laws.
ghost use Rattle.bn_leap.specs.Laws.{Laws};

/// Laws on leaps, each a named field.
pub fn leap_laws()
    ensures { Laws }
{}
