//! Construction of banks.
ghost use Rattle.std.specs.Prelude.{◌≡◌, ◌↔◌, ◌<◌, IfOk, IfErr};
ghost use Rattle.bn_rsm.specs.Machines.{machine_table};
ghost use Rattle.bn_realise.specs.BankNets.{IsBankOf, bank_elements, IsCounted};

use crate::refusal::BankRefusal;
use crate::standing::Bank;
use crate::wires::bank_wires;
use bn_circuits::{MOST_ELEMENTS, rotary_net};
use bn_element::Element;
use bn_rsm::Rsm;
use std::alloc::Global;

/// The bank of a machine. Returns `Elements` exactly if the bank would have more than `MOST_ELEMENTS` elements.
pub fn bank(alloc: Global, rsm: &Rsm) -> Result<Bank, BankRefusal>
    requires some_states { 0 < rsm.now.states }
    requires some_lines { 0 < rsm.now.lines }
    ensures made { IfOk result (λ v. IsBankOf v (machine_table rsm.now)) }
    ensures elements { (result ≡ Err (BankRefusal.Elements (bank_elements rsm.now)))
        ↔ (MOST_ELEMENTS < bank_elements rsm.now) }
    ensures count { IfErr result (IsCounted (bank_elements rsm.now)) }
{
    let (states, lines) = (rsm.states(), rsm.lines_in());
    let count = u64::from(states) * (u64::from(lines) + 1);
    if count > MOST_ELEMENTS {
        return Err(BankRefusal::Elements { count });
    }
    let wires = bank_wires(alloc, rsm, 0)?;
    let Ok(net) = rotary_net(alloc, count as u32, wires.as_slice()) else {
        return Err(BankRefusal::NoMemory);
    };
    Ok(Bank::of(net, states, lines))
}
