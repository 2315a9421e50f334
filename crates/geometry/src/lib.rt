//! The geometry of a codestream: the image area and its tiles, and each component's part of them (T.800 Annex B).
#![tactic(auto)]

pub mod axis;
mod columns;
mod components;
pub mod grid;
pub mod sampling;
mod tiles;

ghost use Rattle.geometry.specs.Worked.{TilesWorked};

/// A grid of two by two tiles, worked out from the definitions.
pub fn tiles_worked()
    ensures { TilesWorked }
{}
