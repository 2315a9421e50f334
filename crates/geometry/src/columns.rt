//! The tiles of one direction.
ghost use Rattle.std.specs.Prelude.{◌≡◌, ◌<◌};
ghost use Rattle.geometry.specs.TileGrid.{tile_count, tile_span};
ghost use Rattle.geometry.specs.Tiles.{axis};

use crate::axis::TileAxis;

impl TileAxis {
    /// numXtiles or numYtiles (B-5).
    #[tactic(auto, using(rect::proofs::Ceil::ceil_code))]
    pub fn num_tiles(&self) -> u32
        ensures { result ≡ tile_count (axis self.now) }
    {
        (self.size - self.origin).div_ceil(self.side)
    }

    /// Where column or row `p` begins (B-7, B-8).
    pub(crate) fn tile_start(&self, p: u32) -> u32
        requires { p < tile_count (axis self.now) }
        ensures { result ≡ (tile_span (axis self.now) p).from }
    {
        let start = u64::from(self.origin) + u64::from(p) * u64::from(self.side);
        start.max(u64::from(self.offset)) as u32
    }

    /// Where column or row `p` ends (B-9, B-10): the smaller of two numbers, where `tile_start` is the larger.
    pub(crate) fn tile_end(&self, p: u32) -> u32
        ensures { result ≡ (tile_span (axis self.now) p).to }
    {
        let end = u64::from(self.origin) + (u64::from(p) + 1) * u64::from(self.side);
        end.min(u64::from(self.size)) as u32
    }
}
