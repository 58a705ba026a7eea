//! Reading a configuration text in memory.

ghost use Rattle.std.specs.Prelude.{◌≢◌, IfOk, IfErr};
ghost use Rattle.bn_netlist_laws.specs.Spelling.{Spelling};
ghost use Rattle.bn_netlist_laws.specs.Spelling.{Spelled};
ghost use Rattle.bn_netlist_laws.specs.declared.version.Version.{Version};
ghost use Rattle.bn_netlist.specs.NetText.{spelling_of, IsTextRefusal};

use crate::line_refusal::NetlistRefusal;
use crate::net_config::NetConfig;
use crate::read_from::read_text;
use crate::refusal::FromRefusal;
use bn_io::SliceInput;
use std::alloc::Global;

/// Reads a configuration text of either version. Returns `Ok` only if the text spells the result in its version. A
/// refusal names the first faulty line, counted from 1, and the first fault of that line; a refused text spells no
/// configuration, unless memory ran out. (This project's own profile.)
pub fn read_config(alloc: Global, bytes: &[u8]) -> Result<NetConfig, NetlistRefusal>
    ensures spelled { IfOk result (λ c. Spelled c.version (spelling_of c) bytes.now) }
    ensures refused { IfErr result (IsTextRefusal bytes.now) }
    ensures nothing_else { IfErr result (λ refusal. refusal ≢ NetlistRefusal.NoMemory →
        (v : Version) (s : Spelling) → Spelled v s bytes.now → ⊥) }
{
    let mut input = SliceInput::new(bytes);
    match read_text(alloc, &mut input, u64::MAX) {
        Ok(config) => Ok(config),
        Err(FromRefusal::Text(refusal)) => Err(refusal),
        Err(FromRefusal::NoMemory) => Err(NetlistRefusal::NoMemory),
        Err(FromRefusal::ReadFault | FromRefusal::TooLong) => unreachable!(),
    }
}
