//! The segments SOT, PPM and PPT, and those that are skipped by their length.
#![tactic(auto)]

pub mod ppm;
pub mod ppt;
pub mod segment;
pub mod skip;
pub mod sot;
