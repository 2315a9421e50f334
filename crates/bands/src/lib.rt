//! The resolutions of a component tile and their sub-bands (T.800 B.5).
#![tactic(auto)]

pub mod decomposition;
mod edges;
pub mod numbers;
pub mod resolution;
pub mod sub_band;

ghost use Rattle.bands.specs.Laws.{BandsCover};
ghost use Rattle.bands.specs.Worked.{BandsWorked};

/// A component tile's sub-bands of all resolutions have its area together.
pub fn bands_cover()
    ensures { BandsCover }
{}

/// Resolutions and sub-bands of small tiles, worked out from the definitions.
pub fn bands_worked()
    ensures { BandsWorked }
{}
