//! The laws on the answers. The function does nothing: its contract is the laws.
ghost use Rattle.bn_reply_traces.specs.Laws.{Laws};

/// The laws on the answers, a named field each.
pub fn reply_traces_laws()
    ensures { Laws }
{}
