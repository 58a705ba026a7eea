//! Laws on tapes, steps and runs. The function does nothing: its contract is the laws.
ghost use Rattle.bn_machine.specs.Laws.{Laws};

/// Laws on tapes, steps and runs, a named field each.
pub fn machine_laws()
    ensures { Laws }
{}
