//! A network with its configuration.

use crate::module::Module;
use crate::windows::Windows;
use bn_circuits::{Config, Net};
use std::marker::Model;

/// The network of a machine of quadruples (own to this project): its finite control, module 0, and the cells of its
/// three tapes, tape by tape from left to right; with a configuration, and with the window for which it was
/// assembled. Contracts see the net, the configuration and the window.
#[derive(Drop)]
pub struct Assembly {
    net: Net<Module>,
    config: Config,
    windows: Windows,
}

impl Model for Assembly {
    ghost use Rattle.bn_network_assembly.specs.Assembled.{Assembled, IsKept, assembled_code, limits_of};

    ghost Value = { Assembled };

    ghost coded = { assembled_code };

    ghost view = { λ a. record { net = a.net; config = a.config; limits = limits_of a.windows } };

    ghost invariant = { λ a. IsKept (record { net = a.net; config = a.config; limits = limits_of a.windows }) };
}

impl Assembly {
    ghost use Rattle.std.specs.Prelude.{◌≡◌, ℕ, ◌≤◌, List};
    ghost use Rattle.bn_quad.specs.Quadruples.{Configuration, Quadruples};
    ghost use Rattle.bn_network.specs.Controls.{ControlState, symbol_count};
    ghost use Rattle.bn_network_assembly.specs.Assembled.{IsKept, IsAssembledFrom, limits_of};

    // The network with these parts.
    pub(crate) fn of(net: Net<Module>, config: Config, windows: Windows) -> Assembly
        requires { IsKept (record { net = net; config = config; limits = limits_of windows }) }
        ensures { result ≡ (record { net = net; config = config; limits = limits_of windows }) }
    {
        Assembly {
            net,
            config,
            windows,
        }
    }

    /// The net of modules.
    pub fn net(&self) -> &Net<Module>
        ensures net { result.now ≡ self.now.net }
        ensures kept { IsKept self.now }
    {
        &self.net
    }

    /// The configuration in which it was assembled: the control in its first state, the words on their tapes from
    /// cell 1 on, all other cells blank, the heads at 0, the signal at the control's port from outside, and no step
    /// made.
    pub fn config(&self) -> &Config
        ensures config { result.now ≡ self.now.config }
        ensures kept { IsKept self.now }
    {
        &self.config
    }

    /// The window of each tape.
    pub fn windows(&self) -> &Windows
        ensures windows { limits_of result.now ≡ self.now.limits }
        ensures kept { IsKept self.now }
    {
        &self.windows
    }

    /// The number of symbols of a tape, counted from 1 to 3.
    pub fn symbols(&self, tape: u32) -> u32
        requires first { 1 ≤ tape }
        requires last { tape ≤ 3 }
        ensures { (m : Quadruples) (c : Configuration ℕ) (names : List ControlState)
            → IsAssembledFrom m self.now.limits c names self.now → result ≡ symbol_count m tape }
    {
        match self.net.element(self.windows.first_cell(tape)) {
            Module::Control(_) => 0,
            Module::Cell(cell) => cell.symbols,
        }
    }
}
