//! Bennett's reversible machine (Bennett 1973), as definitions: its list of quadruples, the contents of its tapes at
//! each step of its run, and his theorem for every machine in standard form, on infinite tapes and within limits.
#![tactic(auto)]

mod laws;
mod name;

pub use laws::bennett_laws;
pub use name::Name;
