//! The replies of the commands on one table: `check`, `machine`, `reversible`, `bennett`, `inverse` and `standard`;
//! and the opening of a table of quadruples and of words on its tapes, for the commands that take them.
#![tactic(auto)]

mod bennett;
mod check;
mod inverse;
mod laws;
mod machine;
mod machine_run;
mod opening;
mod reversible;
mod standard;
mod tape_names;
mod uniform;
mod words;

pub use bennett::reply_bennett;
pub use check::reply_check;
pub use inverse::reply_inverse;
pub use laws::reply_machines_laws;
pub use machine::reply_machine;
pub use machine_run::letter_at;
pub use opening::{OpenedQuads, foreign_on_tape, open_quads};
pub use reversible::{quad_fault_text, reply_reversible};
pub use standard::reply_standard;
pub use tape_names::{Spelling, TapeNames};
pub use uniform::{OpenedUniform, open_uniform};
pub use words::{SpelledWord, SpelledWords, spell_words};
