//! Laws over the definitions alone. The function does nothing: its contract is the laws.
ghost use Rattle.bn_words.specs.Laws.{Laws};

/// Laws over the definitions alone, a named field each.
pub fn words_laws()
    ensures { Laws }
{}
