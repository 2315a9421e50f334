//! The survey of a tile-part: which tile it belongs to, how many PPT segments its header has, and where its body lies.
#![tactic(auto)]

pub mod laws;
pub mod survey;
