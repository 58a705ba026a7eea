//! Laws on network texts. The function does nothing: its contract is the laws.
ghost use Rattle.bn_network_text.specs.Laws.{Laws};

/// Laws on network texts, each a named field.
pub fn network_text_laws()
    ensures { Laws }
{}
