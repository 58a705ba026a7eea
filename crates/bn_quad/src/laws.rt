//! Laws on quadruple machines. The function does nothing: its contract is the laws.
ghost use Rattle.bn_quad.specs.Laws.{Laws};

/// Laws on quadruple machines, a named field each.
pub fn quad_laws()
    ensures { Laws }
{}
