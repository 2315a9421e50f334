//! What stands at a place of a main header or a tile-part header: a segment with its contents, or what ends the header.
#![tactic(auto)]

mod contents;
pub mod found;
pub mod kind;
pub mod laws;
pub mod main_header;
pub mod part_header;
