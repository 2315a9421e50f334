//! What stops a reading: three nested faults, each with a number and most with a place.
#![tactic(auto)]

pub mod decode;
pub mod segment;
