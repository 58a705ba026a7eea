//! Laws on columns in any circuit. The function does nothing: its contract is the laws.
ghost use Rattle.bn_column.specs.Laws.{Laws};

/// Laws on columns in any circuit, each a named field.
pub fn column_laws()
    ensures { Laws }
{}
