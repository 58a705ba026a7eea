//! The law of this crate. The function does nothing: its contract is the law.
ghost use Rattle.bn_lists.specs.Laws.{Laws};

/// The law on one-to-one steps among finitely many elements.
pub fn lists_laws()
    ensures { Laws }
{}
