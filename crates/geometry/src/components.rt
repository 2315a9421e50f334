//! A component's part of the image area and of the tiles.
ghost use Rattle.std.specs.Prelude.{◌≡◌};
ghost use Rattle.rect.specs.Rects.{region};
ghost use Rattle.rect.specs.Spans.{area};
ghost use Rattle.rect.specs.Sums.{total, ExactlyOne};
ghost use Rattle.geometry.specs.Components.{component_tiles_of, sampled, samples, ComponentTileAnswer, ComponentTilesListed};
ghost use Rattle.geometry.specs.Tiles.{image_of};

use crate::grid::TileGrid;
use crate::sampling::Sampling;
use rect::IntRect;

impl Sampling {
    /// The samples in a rectangle of the reference grid (B-12).
    #[tactic(auto, using(rect::proofs::Ceil::ceil_code))]
    pub fn samples_in(&self, whole: IntRect) -> IntRect
        ensures { region result ≡ sampled self.now (region whole) }
    {
        IntRect::from_ltrb(
            whole.x0.div_ceil(u32::from(self.x)),
            whole.y0.div_ceil(u32::from(self.y)),
            whole.x1.div_ceil(u32::from(self.x)),
            whole.y1.div_ceil(u32::from(self.y)),
        )
    }
}

impl TileGrid {
    /// The component's samples in tile `idx`, if there is such a tile (B-12).
    pub fn component_tile(&self, idx: u32, sampling: Sampling) -> Option<IntRect>
        ensures { ComponentTileAnswer self.now sampling idx result }
    {
        let tile = self.tile(idx)?;
        Some(sampling.samples_in(tile))
    }

    /// The component's samples in the image area. Its tiles cut them up: every sample lies in exactly one of them.
    pub fn component_area(&self, sampling: Sampling) -> IntRect
        ensures edges { region result ≡ sampled sampling (image_of self.now) }
        ensures number { area (region result) ≡ samples self.now sampling }
        ensures listed { ComponentTilesListed self.now sampling }
        ensures areas_add_up { total area (component_tiles_of self.now sampling) ≡ samples self.now sampling }
        ensures exactly_one { ExactlyOne (region result) (component_tiles_of self.now sampling) }
    {
        sampling.samples_in(self.image_area())
    }
}
