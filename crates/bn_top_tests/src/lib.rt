//! Worked rows of whole commands: what the workbench answers to words and bytes, held against
//! answers that were found by hand. The crate has nothing but these tests.
#![tactic(auto)]

#[cfg(test)]
mod banks;
#[cfg(test)]
mod behaviours;
#[cfg(test)]
mod boards;
#[cfg(test)]
mod builds;
#[cfg(test)]
mod calls;
#[cfg(test)]
mod circuits;
#[cfg(test)]
mod desk;
#[cfg(test)]
mod devices;
#[cfg(test)]
mod drives;
#[cfg(test)]
mod elements;
#[cfg(test)]
mod equals;
#[cfg(test)]
mod erased;
#[cfg(test)]
mod farms;
#[cfg(test)]
mod faults;
#[cfg(test)]
mod generated;
#[cfg(test)]
mod layers;
#[cfg(test)]
mod layouts;
#[cfg(test)]
mod least;
#[cfg(test)]
mod looks;
#[cfg(test)]
mod machines;
#[cfg(test)]
mod mirrors;
#[cfg(test)]
mod plans;
#[cfg(test)]
mod quadruples;
#[cfg(test)]
mod reversed;
#[cfg(test)]
mod rooms;
#[cfg(test)]
mod sessions;
#[cfg(test)]
mod standard;
#[cfg(test)]
mod streams;
#[cfg(test)]
mod versions;
#[cfg(test)]
mod walks;
#[cfg(test)]
mod windows;
