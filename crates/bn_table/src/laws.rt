//! Laws of the definitions. The function does nothing: its contract is the laws.
ghost use Rattle.bn_table.specs.Laws.{Laws};

/// Laws of the definitions, a named field each.
pub fn table_laws()
    ensures { Laws }
{}
