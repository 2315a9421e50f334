//! A precinct.
use rect::IntRect;

/// A precinct of a resolution.
#[derive(Clone, Copy, Debug, PartialEq, Eq)]
pub struct PrecinctData {
    /// Where it begins on the reference grid.
    pub r_x: u32,
    pub r_y: u32,
    /// What it covers of the resolution's sub-bands, in their coordinates.
    pub rect: IntRect,
    /// Its number, row by row.
    pub idx: u64,
}
