//! The laws of this crate. The function does nothing: its contract is the laws.
ghost use Rattle.bn_reply_views.specs.Laws.{Laws};

/// The laws of this crate, a named field each.
pub fn reply_views_laws()
    ensures { Laws }
{}
