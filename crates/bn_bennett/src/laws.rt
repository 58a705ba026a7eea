//! Laws on the machine of a translation. The function does nothing: its contract is the laws.
ghost use Rattle.bn_bennett.specs.Laws.{Laws};

/// Laws on the machine of a translation, each a named field of `Laws`.
pub fn bennett_translation_laws()
    ensures { Laws }
{}
