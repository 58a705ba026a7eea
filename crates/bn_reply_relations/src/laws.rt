//! Laws on the answers of the commands on circuits. The function does nothing: its contract is the laws.
ghost use Rattle.bn_reply_relations.specs.Laws.{Laws};

/// Laws on the answers of the commands on circuits, a named field each.
pub fn reply_relations_laws()
    ensures { Laws }
{}
