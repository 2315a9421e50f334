//! The tile grid in both directions.
ghost use Rattle.std.specs.Prelude.{◌*◌, ◌^◌, ◌<◌};
ghost use Rattle.rect.specs.Spans.{reaching};

use crate::axis::TileAxis;

/// The image area and its tiles, of which there are fewer than 2^32.
#[derive(Clone, Copy, Debug, PartialEq, Eq)]
pub struct TileGrid {
    pub x: TileAxis,
    pub y: TileAxis,
    ghost few: { reaching x.origin x.side x.size * reaching y.origin y.side y.size < 2 ^ 32 },
}
