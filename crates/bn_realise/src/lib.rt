//! Banks: reversible sequential machines as arrays of columns of rotary elements, and their moves in exactly counted
//! steps.
#![tactic(auto)]

mod cost;
mod cross;
mod laws;
mod make;
mod refusal;
mod standing;
mod wires;

pub use cost::bank_cost;
pub use cross::cross_bank_in;
pub use laws::realise_laws;
pub use make::bank;
pub use refusal::BankRefusal;
pub use standing::Bank;
pub use wires::bank_wires;
