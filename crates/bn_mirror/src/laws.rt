//! The laws on inverse circuits. The function does nothing: its contract is the laws.
ghost use Rattle.bn_mirror.specs.Laws.{Laws};

/// The laws on inverse circuits, each a named field.
pub fn mirror_laws()
    ensures { Laws }
{}
