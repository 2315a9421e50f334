//! What a main header says, from its bytes alone: every refusal in its order, and what an accepted header holds.
#![tactic(auto)]

mod header_segments;
pub mod laws;
mod passed;
pub mod room;
pub mod survey;
