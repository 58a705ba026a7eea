//! Laws on banks in any circuit. The function does nothing: its contract is the laws.
ghost use Rattle.bn_realise.specs.Laws.{Laws};

/// Laws on banks in any circuit, each a named field.
pub fn realise_laws()
    ensures { Laws }
{}
