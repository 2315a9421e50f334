//! One direction of the image area and the tile grid.
ghost use Rattle.std.specs.Prelude.{◌+◌, ◌^◌, ◌<◌, ◌≤◌};

/// Xsiz, XOsiz, XTsiz and XTOsiz, or the same four in y: the image reaches from `offset` to `size`, the tiles begin at `origin` and are `side` wide.
#[derive(Clone, Copy, Debug, PartialEq, Eq)]
pub struct TileAxis {
    pub size: u32,
    pub offset: u32,
    pub side: u32,
    pub origin: u32,
    ghost filled: { offset < size },
    ghost sided: { 0 < side },
    ghost before: { origin ≤ offset },
    ghost reached: { offset < origin + side },
    ghost ends: { origin + side < 2 ^ 32 },
}
