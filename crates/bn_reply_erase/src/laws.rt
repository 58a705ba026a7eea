//! Laws on the answers of `erase` and `erase =W n`. The function does nothing: its contract is the laws.
ghost use Rattle.bn_reply_erase.specs.Laws.{Laws};

/// Laws on the answers of `erase` and `erase =W n`, a named field each.
pub fn reply_erase_laws()
    ensures { Laws }
{}
