//! Laws on the machine of k increments. The function does nothing: its contract is the laws.
ghost use Rattle.bn_gen.specs.Laws.{Laws};

/// Laws on the machine of k increments, a named field each.
pub fn gen_laws()
    ensures { Laws }
{}
