//! Marker segments of a codestream.
#![tactic(auto)]

mod fields;
pub mod size;
pub mod size_data;
