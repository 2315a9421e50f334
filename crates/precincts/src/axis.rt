//! One direction of a resolution of a component tile.
ghost use Rattle.std.specs.Prelude.{◌<◌, ◌≤◌};

use bands::resolution::Resolution;

/// The tile's edges on the reference grid, XRsiz or YRsiz, the resolution, and its precinct exponent PPx or PPy.
#[derive(Clone, Copy, Debug, PartialEq, Eq)]
pub struct PrecinctAxis {
    pub from: u32,
    pub to: u32,
    pub step: u8,
    pub resolution: Resolution,
    pub exponent: u8,
    ghost stepped: { 0 < step },
    ghost small: { exponent ≤ 15 },
}
