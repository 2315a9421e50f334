//! The code-blocks of a resolution.
use precincts::grid::PrecinctGrid;

/// A resolution of a component tile with the exponents xcb and ycb of its component's code-blocks.
#[derive(Clone, Copy, Debug, PartialEq, Eq)]
pub struct BlockGrid {
    pub precincts: PrecinctGrid,
    pub xcb: u8,
    pub ycb: u8,
}
