//! Code-blocks (T.800 B.7), and what all code-blocks of a sub-band, a tile and a component are together.
#![tactic(auto)]

mod axis;
pub mod cells;
pub mod component;
pub mod grid;
mod resolution;
mod sub_band;

ghost use Rattle.blocks.specs.Worked.{BlocksWorked};

/// The code-blocks of a small image, worked out from the definitions.
pub fn blocks_worked()
    ensures { BlocksWorked }
{}
