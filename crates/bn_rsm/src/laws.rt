//! Laws on machines and on the costs of their moves. The function does nothing: its contract is the laws.
ghost use Rattle.bn_rsm.specs.Laws.{Laws};

/// Laws on machines and on the costs of their moves, each a named field.
pub fn rsm_laws()
    ensures { Laws }
{}
