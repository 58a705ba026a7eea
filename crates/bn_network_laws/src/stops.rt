//! Laws on the stops of machines of quadruples. The function does nothing: its contract is the laws.
ghost use Rattle.bn_network_laws.specs.StopLaws.{Laws};

/// The laws on the read at which a machine of quadruples is stuck (own to this project), each a named field of
/// `Laws`. Tapes are counted from 1.
pub fn stop_laws()
    ensures { Laws }
{}
