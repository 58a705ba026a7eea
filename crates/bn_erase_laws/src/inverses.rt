//! Laws on inverse machines. The function does nothing: its contract is the laws.
ghost use Rattle.bn_erase_laws.specs.InverseLaws.{Laws};

/// The laws on the inverse of a machine of quadruples (Bennett 1973: its inverted list), each a named field of
/// `Laws`.
pub fn inverse_laws()
    ensures { Laws }
{}
