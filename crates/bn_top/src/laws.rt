//! Laws over the definitions alone. The function does nothing: its contract is the laws.
ghost use Rattle.bn_top.specs.Laws.{Laws};

/// Laws over the definitions alone, a named field each.
pub fn top_laws()
    ensures { Laws }
{}
