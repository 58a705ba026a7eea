//! Laws on the answers of `equal`. The function does nothing: its contract is the laws.
ghost use Rattle.bn_reply_equal.specs.Laws.{Laws};

/// Laws on the answers of `equal`, a named field each.
pub fn reply_equal_laws()
    ensures { Laws }
{}
