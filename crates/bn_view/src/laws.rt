//! The laws on what a view shows. The function does nothing: its contract is the laws.
ghost use Rattle.bn_view.specs.Laws.{Laws};

/// The laws on what a view shows, a named field each.
pub fn view_laws()
    ensures { Laws }
{}
