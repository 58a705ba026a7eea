//! Laws of the definitions. The function does nothing: its contract is the laws.
ghost use Rattle.bn_csv.specs.Laws.{Laws};

/// Laws of the definitions, a named field each.
pub fn csv_laws()
    ensures { Laws }
{}
