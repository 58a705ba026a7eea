//! Columns of rotary elements: their wires in any net, their four crossings, and the costs of these.
#![tactic(auto)]

mod cross;
mod laws;
mod make;
mod refusal;
mod standing;
mod wires;

pub use bn_circuits::rotary_net;
pub use cross::{cost, cross_in};
pub use laws::column_laws;
pub use make::column;
pub use refusal::ColumnRefusal;
pub use standing::Column;
pub use wires::{column_wires, push_rung, push_wire, wire};
