//! Reads a codestream byte by byte, big-endian, from any place in it.
#![tactic(auto)]

pub mod reader;
