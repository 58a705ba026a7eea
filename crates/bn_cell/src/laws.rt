//! Laws on cells. The function does nothing: its contract is the laws.
ghost use Rattle.bn_cell.specs.Laws.{Laws};

/// Laws on cells, each a named field of `Laws`.
pub fn cell_laws()
    ensures { Laws }
{}
