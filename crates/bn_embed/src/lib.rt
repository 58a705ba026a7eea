//! The workbench as one call from C: arguments and an input in, a text and a status out, all in the caller's memory.
#![tactic(auto)]

mod answer;
mod split;
