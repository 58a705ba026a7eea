//! Laws on the definitions alone. The function does nothing: its contract is the laws.
ghost use Rattle.bn_netlist_laws.specs.Laws.{Laws};

/// Laws on the definitions alone, each a named field.
pub fn netlist_text_laws()
    ensures { Laws }
{}
