//! The laws of this crate. The function does nothing: its contract is the laws.
ghost use Rattle.bn_network.specs.Laws.{Laws};

/// The laws of this crate, each a named field of `Laws`.
pub fn network_definition_laws()
    ensures { Laws }
{}
