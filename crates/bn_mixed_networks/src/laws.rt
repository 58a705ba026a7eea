//! Laws on assembled circuits. The function does nothing: its contract is the laws.
ghost use Rattle.bn_mixed_networks.specs.Laws.{Laws};

/// Laws on assembled circuits, each a named field.
pub fn mixed_networks_laws()
    ensures { Laws }
{}
