//! Laws on equal states. The function does nothing: its contract is the laws.
ghost use Rattle.bn_equal.specs.Laws.{Laws};

/// Laws on equal states and on least differences, each a named field.
pub fn equal_laws()
    ensures { Laws }
{}
