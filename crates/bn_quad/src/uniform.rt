//! Machines that are deterministic, reversible and uniform.
ghost use Rattle.std.specs.Prelude.{◌≡◌, IfOk, IfErr, OnOk};

use crate::machine::QuadMachine;
use crate::refusal::UniformRefusal;
use std::marker::Model;

/// A machine that is deterministic, reversible and uniform. Contracts see the machine.
#[derive(Drop)]
pub struct Uniform {
    machine: QuadMachine,
}

impl Model for Uniform {
    ghost use Rattle.bn_quad.specs.Quadruples.{Quadruples};
    ghost use Rattle.bn_quad.specs.Calls.{IsUniformMachine};

    ghost Value = { Quadruples };

    ghost view = { λ u. u.machine };

    ghost invariant = { λ u. IsUniformMachine u.machine };
}

impl Uniform {
    ghost use Rattle.bn_quad.specs.Calls.{IsUniformMachine};

    /// The machine as one that is known to be deterministic, reversible and uniform. Nothing is tested. Allocates no
    /// memory.
    pub fn new(machine: QuadMachine) -> Uniform
        requires { IsUniformMachine machine }
        ensures { result ≡ machine }
    {
        Uniform { machine }
    }

    /// The machine.
    pub fn machine(&self) -> &QuadMachine
        ensures value { result.now ≡ self.now }
        ensures uniform { IsUniformMachine self.now }
    {
        &self.machine
    }
}

impl QuadMachine {
    ghost use Rattle.bn_quad.specs.Calls.{IsUniformMachine, IsUniformRefusal};

    /// The machine as one that is deterministic, reversible and uniform. The result is `Err` exactly if it is not, with
    /// the machine and the first of the three tests that fails. Allocates no memory.
    pub fn into_uniform(self) -> Result<Uniform, (QuadMachine, UniformRefusal)>
        ensures made { IfOk result (λ u. u ≡ self) }
        ensures uniform { OnOk result (IsUniformMachine self) }
        ensures handed_back { IfErr result (λ e. e.0 ≡ self) }
        ensures refused { IfErr result (λ e. IsUniformRefusal self.rules e.1) }
    {
        if let Err((i, j)) = self.check_deterministic() {
            return Err((self, UniformRefusal::Domain(i, j)));
        }
        if let Err((i, j)) = self.check_reversible() {
            return Err((self, UniformRefusal::Range(i, j)));
        }
        if let Err(why) = self.check_uniform() {
            return Err((self, UniformRefusal::Mask(why)));
        }
        Ok(Uniform { machine: self })
    }
}
