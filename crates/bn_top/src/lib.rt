//! The workbench as one call: arguments and bytes in, bytes and a status out.
#![tactic(auto)]

mod answering;
mod call;
mod laws;
mod memory;

pub use bn_lists::NoMemory;
pub use bn_reply::{Reply, Status};
pub use call::workbench;
pub use laws::top_laws;
pub use memory::reply_in_memory;
