//! The rows that a book keeps of a picture, and what coding and quantization segments make of a component's settings.
#![tactic(auto)]

pub mod inherit;
pub mod rows;
pub mod steps;
