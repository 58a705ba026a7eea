//! Laws on the headline. The function does nothing: its contract is the laws.
ghost use Rattle.bn_headline.specs.Laws.{Laws};

/// Laws on the headline, a named field each.
pub fn headline_laws()
    ensures { Laws }
{}
