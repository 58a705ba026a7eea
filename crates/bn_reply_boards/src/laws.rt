//! Laws on the answers of `generate`. The function does nothing: its contract is the laws.
ghost use Rattle.bn_reply_boards.specs.Laws.{Laws};

/// Laws on the answers of `generate`, a named field each.
pub fn reply_boards_laws()
    ensures { Laws }
{}
