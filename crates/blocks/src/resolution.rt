//! The sub-bands of a resolution, cut into code-blocks.
ghost use Rattle.std.specs.Prelude.{◌≡◌, ◌^◌, ◌≤◌};
ghost use Rattle.rect.specs.Rects.{region};
ghost use Rattle.rect.specs.Spans.{meets};
ghost use Rattle.precincts.specs.Asked.{across, direction, down};
ghost use Rattle.blocks.specs.CodeBlocks.{block_exponent_of};
ghost use Rattle.blocks.specs.Asked.{BlocksAnswer, CutWhereAccepted, SubBandIs};

use crate::cells::CodeBlocks;
use crate::grid::BlockGrid;
use bands::sub_band::SubBandType;
use faults::decode::DecodeError;
use precincts::axis::PrecinctAxis;
use rect::IntRect;

// xcb' or ycb' (B-17, B-18).
fn block_exponent(cb: u8, a: PrecinctAxis) -> u8
    ensures value { result ≡ block_exponent_of cb (direction a) }
    ensures small { result ≤ 15 }
{
    if a.resolution.r == 0 {
        return cb.min(a.exponent);
    }
    cb.min(a.exponent.saturating_sub(1))
}

// Not `intersect`, which answers zeros where the two do not touch.
fn cut(a: IntRect, b: IntRect) -> IntRect
    ensures { region result ≡ meets (region a) (region b) }
{
    IntRect::from_ltrb(
        a.x0.max(b.x0),
        a.y0.max(b.y0),
        a.x1.min(b.x1),
        a.y1.min(b.y1),
    )
}

impl BlockGrid {
    /// A code-block's width (B-17).
    pub fn code_block_width(&self) -> u32
        ensures { result ≡ 2 ^ block_exponent_of self.now.xcb (across self.now.precincts) }
    {
        1 << block_exponent(self.xcb, self.precincts.x)
    }

    /// A code-block's height (B-18).
    pub fn code_block_height(&self) -> u32
        ensures { result ≡ 2 ^ block_exponent_of self.now.ycb (down self.now.precincts) }
    {
        1 << block_exponent(self.ycb, self.precincts.y)
    }

    /// A sub-band of the resolution (B-15). The code-blocks of all precincts cut it up, where the precincts are not refused.
    pub fn sub_band_rect(&self, band: SubBandType) -> Result<IntRect, DecodeError>
        ensures answers { SubBandIs (across self.now.precincts) (down self.now.precincts) band result }
        ensures cut_up { CutWhereAccepted self.now band }
    {
        self.precincts
            .x
            .resolution
            .sub_band_rect(self.precincts.component_tile(), band)
    }

    /// The code-blocks of a sub-band in precinct `k`. The code-blocks of all precincts cut the sub-band up.
    pub fn code_blocks(&self, band: SubBandType, k: u64) -> Result<CodeBlocks, DecodeError>
        ensures { BlocksAnswer self.now band k result }
    {
        let whole = self.sub_band_rect(band)?;
        let precinct = self.precincts.precinct(k)?;
        Ok(CodeBlocks {
            rect: cut(precinct.rect, whole),
            xcb: block_exponent(self.xcb, self.precincts.x),
            ycb: block_exponent(self.ycb, self.precincts.y),
        })
    }
}
