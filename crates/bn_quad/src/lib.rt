//! Machines of three tapes given by quadruples, the exact local tests of determinism and reversibility, and the
//! inverse machine.
#![tactic(auto)]

mod clash;
mod indexed;
mod laws;
mod machine;
mod names;
mod quad;
mod refusal;
mod search;
mod soundness;
mod state_index;
mod tapes;
mod uniform;

pub use indexed::IndexedMachine;
pub use laws::quad_laws;
pub use machine::QuadMachine;
pub use names::QuadNames;
pub use quad::{Act, Quad};
pub use refusal::{NotUniform, QuadRefusal, UniformRefusal};
pub use tapes::{QuadTurn, Tapes};
pub use uniform::Uniform;
