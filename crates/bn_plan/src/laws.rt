//! Laws on floor plans. The function does nothing: its contract is the laws.
ghost use Rattle.bn_plan.specs.Laws.{Laws};

/// Laws on floor plans, each a named field.
pub fn plan_laws()
    ensures { Laws }
{}
