//! Laws on networks and their circuits. The function does nothing: its contract is the laws.
ghost use Rattle.bn_network_circuit.specs.Laws.{Laws};

/// Laws on networks that texts describe, each a named field.
pub fn network_circuit_laws()
    ensures { Laws }
{}
