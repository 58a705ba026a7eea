//! The laws of this crate. The function does nothing: its contract is the laws.
ghost use Rattle.bn_reply_walks.specs.Laws.{Laws};

/// The laws of this crate, a named field each.
pub fn reply_walks_laws()
    ensures { Laws }
{}
