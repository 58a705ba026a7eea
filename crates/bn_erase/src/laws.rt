//! Laws on the erasing machine and on machines over one alphabet. The function does nothing: its contract is the laws.
ghost use Rattle.bn_erase.specs.Laws.{Laws};

/// Laws on the erasing machine and on machines over one alphabet, each a named field of `Laws`.
pub fn erase_joining_laws()
    ensures { Laws }
{}
