//! Laws on Bennett's reversible machine. The function does nothing: its contract is the laws.
ghost use Rattle.bn_bennett_laws.specs.Laws.{Laws};

/// Laws on Bennett's reversible machine, each a named field of `Laws`.
pub fn bennett_laws()
    ensures { Laws }
{}
