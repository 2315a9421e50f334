//! The precincts of a resolution in both directions.
ghost use Rattle.std.specs.Prelude.{◌≡◌};

use crate::axis::PrecinctAxis;

/// A resolution of a component tile with its precincts' sizes.
#[derive(Clone, Copy, Debug, PartialEq, Eq)]
pub struct PrecinctGrid {
    pub x: PrecinctAxis,
    pub y: PrecinctAxis,
    ghost levels: { x.resolution.levels ≡ y.resolution.levels },
    ghost r: { x.resolution.r ≡ y.resolution.r },
}
