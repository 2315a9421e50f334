//! The code-blocks of a sub-band in one precinct.
ghost use Rattle.std.specs.Prelude.{◌≤◌};

use rect::IntRect;

/// What the precinct has of the sub-band, and the exponents of the code-blocks' sizes.
#[derive(Clone, Copy, Debug, PartialEq, Eq)]
pub struct CodeBlocks {
    pub rect: IntRect,
    pub xcb: u8,
    pub ycb: u8,
    ghost wide: { xcb ≤ 15 },
    ghost high: { ycb ≤ 15 },
}
