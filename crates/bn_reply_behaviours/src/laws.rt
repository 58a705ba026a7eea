//! Laws on the answers of the commands on behaviours. The function does nothing: its contract is the laws.
ghost use Rattle.bn_reply_behaviours.specs.Laws.{Laws};

/// The laws on the answers of `behaviour` and `crossings`, a named field each.
pub fn reply_behaviours_laws()
    ensures { Laws }
{}
