//! The tile book, and the tables that a caller lends it.
#![tactic(auto)]

pub mod book;
pub mod tables;
