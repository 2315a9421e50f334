//! The rectangles of resolutions and sub-bands.
ghost use Rattle.std.specs.Prelude.{◌≡◌, ◌+◌, ◌<◌, ◌≤◌, length};
ghost use Rattle.std.specs.List.{range_with_len};
ghost use Rattle.rect.specs.Rects.{region};
ghost use Rattle.rect.specs.Spans.{area};
ghost use Rattle.rect.specs.Sums.{total};
ghost use Rattle.bands.specs.SubBands.{bands, band_areas, band_edge_of, has, level, resolution};
ghost use Rattle.bands.specs.Asked.{BandAnswer, Decomposed, ResolutionAnswer, SubBandAnswer};

use crate::decomposition::Decomposition;
use crate::numbers::ceil_div_pow;
use crate::resolution::Resolution;
use crate::sub_band::SubBandType;
use faults::decode::{BookError, DecodeError};
use rect::IntRect;

impl Decomposition {
    /// N_L, if it is at most 32 (Table A.15).
    pub fn new(levels: u8) -> Option<Decomposition>
        ensures { Decomposed levels result }
    {
        if levels > 32 {
            return None;
        }
        Some(Decomposition { levels })
    }

    /// Resolution `r`, of which there are N_L + 1.
    pub fn resolution(&self, r: u8) -> Result<Resolution, DecodeError>
        ensures { ResolutionAnswer self.now r result }
    {
        if r > self.levels {
            return Err(BookError::NoSuchIndex.into());
        }
        Ok(Resolution {
            levels: self.levels,
            r,
        })
    }
}

// An edge of a sub-band of level `n`, with xo_b or yo_b.
fn band_edge(edge: u32, n: u8, o: u8) -> u32
    requires half_steps { o < 2 }
    requires decomposed { o ≤ n }
    requires levels { n ≤ 32 }
    ensures { result ≡ band_edge_of n o edge }
{
    if o == 0 {
        return ceil_div_pow(edge, n);
    }
    ceil_div_pow(edge.saturating_sub(1 << (n - 1)), n)
}

impl Resolution {
    /// This resolution of a component tile (B-14). The sub-bands of all resolutions up to this one have its area together.
    pub fn rect(&self, tile: IntRect) -> IntRect
        ensures edges { region result ≡ resolution self.now.levels self.now.r (region tile) }
        ensures areas_add_up { total (band_areas self.now.levels (region tile)) (range_with_len 0 (self.now.r + 1)) ≡ area (region result) }
    {
        let k = self.levels - self.r;
        IntRect::from_ltrb(
            ceil_div_pow(tile.x0, k),
            ceil_div_pow(tile.y0, k),
            ceil_div_pow(tile.x1, k),
            ceil_div_pow(tile.y1, k),
        )
    }

    /// n_b, the decomposition level of this resolution's sub-bands (B.5).
    pub fn decomposition_level(&self) -> u8
        ensures { result ≡ level self.now.levels self.now.r }
    {
        if self.r == 0 {
            return self.levels;
        }
        self.levels + 1 - self.r
    }

    /// How many sub-bands it has.
    pub fn num_sub_bands(&self) -> u8
        ensures { result ≡ length (bands self.now.r) }
    {
        if self.r == 0 { 1 } else { 3 }
    }

    /// Sub-band `k` of its sub-bands, in the order of the codestream.
    pub fn sub_band(&self, k: u8) -> Result<SubBandType, DecodeError>
        ensures { BandAnswer self.now k result }
    {
        match (self.r == 0, k) {
            (true, 0) => Ok(SubBandType::LowLow),
            (false, 0) => Ok(SubBandType::HighLow),
            (false, 1) => Ok(SubBandType::LowHigh),
            (false, 2) => Ok(SubBandType::HighHigh),
            _ => Err(BookError::NoSuchIndex.into()),
        }
    }

    /// Whether it has sub-bands of this kind: LL at resolution 0 alone, HL, LH and HH above it.
    pub fn has(&self, band: SubBandType) -> bool
        ensures { result ≡ has self.now.r band }
    {
        match band {
            SubBandType::LowLow => self.r == 0,
            SubBandType::HighLow | SubBandType::LowHigh | SubBandType::HighHigh => self.r > 0,
        }
    }

    /// A sub-band of a component tile (B-15).
    pub fn sub_band_rect(&self, tile: IntRect, band: SubBandType) -> Result<IntRect, DecodeError>
        ensures { SubBandAnswer self.now (region tile) band result }
    {
        if !self.has(band) {
            return Err(BookError::NoSuchIndex.into());
        }
        let n = self.decomposition_level();
        Ok(IntRect::from_ltrb(
            band_edge(tile.x0, n, band.xo()),
            band_edge(tile.y0, n, band.yo()),
            band_edge(tile.x1, n, band.xo()),
            band_edge(tile.y1, n, band.yo()),
        ))
    }
}
