//! Laws on machines that are written with names and read again. The function does nothing: its contract is the laws.
ghost use Rattle.bn_renumbering.specs.Laws.{Laws};

/// The laws on machines of quadruples with renumbered states and symbols (own to this project), the machines that a
/// written table gives when it is read; each law is a named field of `Laws`.
pub fn renumbering_laws()
    ensures { Laws }
{}
