//! Laws on the definitions alone. The function does nothing: its contract is the laws.
ghost use Rattle.bn_netlist.specs.Laws.{Laws};

/// Laws on the definitions alone, each a named field.
pub fn netlist_laws()
    ensures { Laws }
{}
