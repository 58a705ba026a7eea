//! The numbers of a circuit, taken from its network's control.

ghost use Rattle.std.specs.Prelude.{◌≡◌, All, length, IfOk, OnOk};
ghost use Rattle.bn_control.specs.Controlled.{IsTapeAwaited};
ghost use Rattle.bn_network_assembly.specs.Assembled.{IsKept};
ghost use Rattle.bn_board.specs.Starts.{IsLayoutOf};

use crate::layout::Layout;
use bn_control::Control;
use bn_element::Element;
use bn_lists::NoMemory;
use bn_network_assembly::{Assembly, Module};
use std::alloc::Global;

// The numbers of the circuit of this network.
pub(crate) fn layout_of(alloc: Global, assembly: &Assembly) -> Result<Layout, NoMemory>
    ensures numbers { IfOk result (IsLayoutOf assembly.now) }
    ensures kept { IsKept assembly.now }
{
    let Module::Control(control) = assembly.net().element(0) else {
        unreachable!();
    };
    let firsts = firsts_of(alloc, control)?;
    let awaited = awaited_of(alloc, control)?;
    let symbols = [
        assembly.symbols(1),
        assembly.symbols(2),
        assembly.symbols(3),
    ];
    Ok(Layout::new(
        *assembly.windows(),
        symbols,
        control.rsm().states(),
        firsts,
        awaited,
    ))
}

// The first command of each state of the machine.
#[tactic(auto, using(crate::proofs::CopyLemmas::copy_more, crate::proofs::CopyLemmas::copied))]
fn firsts_of(alloc: Global, control: &Control) -> Result<Vec<Option<(u32, u32)>>, NoMemory>
    ensures { IfOk result (λ v. v.items ≡ control.now.firsts) }
{
    let mut firsts = Vec::new(alloc);
    for state in 0..control.quad_states() {
        firsts.push(control.first_command(state))?;
    }
    Ok(firsts)
}

// The first read for which each state of the control waits.
#[tactic(auto, using(crate::proofs::CopyLemmas::copy_more, crate::proofs::CopyLemmas::copied))]
fn awaited_of(alloc: Global, control: &Control) -> Result<Vec<Option<(u32, u32)>>, NoMemory>
    requires { length control.now.awaited ≡ control.now.machine.states }
    ensures list { IfOk result (λ v. v.items ≡ control.now.awaited) }
    ensures tapes { OnOk result (All IsTapeAwaited control.now.awaited) }
{
    let mut awaited = Vec::new(alloc);
    for state in 0..control.rsm().states() {
        awaited.push(control.awaited(state))?;
    }
    Ok(awaited)
}
