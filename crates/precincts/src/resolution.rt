//! The precincts of a resolution by number.
ghost use Rattle.std.specs.Prelude.{◌≡◌};
ghost use Rattle.rect.specs.Rects.{region};
ghost use Rattle.precincts.specs.Precincts.{component_tile_of, count, refusal};
ghost use Rattle.precincts.specs.Asked.{across, down, Counted, Made, PrecinctAnswer};

use crate::axis::PrecinctAxis;
use crate::axis_precinct::AxisPrecinct;
use crate::grid::PrecinctGrid;
use crate::precinct::PrecinctData;
use bands::resolution::Resolution;
use faults::decode::{BookError, DecodeError, DecodingError};
use rect::IntRect;
use rect::cell::Cell;

impl PrecinctGrid {
    /// A resolution of a component tile, from the tile on the reference grid, XRsiz and YRsiz, PPx and PPy; none where a step is 0 or an
    /// exponent above 15.
    pub fn new(
        tile: IntRect,
        xrsiz: u8,
        yrsiz: u8,
        resolution: Resolution,
        ppx: u8,
        ppy: u8,
    ) -> Option<PrecinctGrid>
        ensures { Made tile xrsiz yrsiz resolution ppx ppy result }
    {
        if xrsiz == 0 || yrsiz == 0 || ppx > 15 || ppy > 15 {
            return None;
        }
        let x = PrecinctAxis {
            from: tile.x0,
            to: tile.x1,
            step: xrsiz,
            resolution,
            exponent: ppx,
        };
        let y = PrecinctAxis {
            from: tile.y0,
            to: tile.y1,
            step: yrsiz,
            resolution,
            exponent: ppy,
        };
        Some(PrecinctGrid { x, y })
    }

    /// The component tile (B-12).
    pub fn component_tile(&self) -> IntRect
        ensures { region result ≡ component_tile_of (across self.now) (down self.now) }
    {
        IntRect::from_ltrb(
            self.x.sample_start(),
            self.y.sample_start(),
            self.x.sample_end(),
            self.y.sample_end(),
        )
    }

    /// numprecinctswide (B-16).
    pub fn num_precincts_x(&self) -> u32
        ensures { result ≡ count (across self.now) }
    {
        self.x.count()
    }

    /// numprecinctshigh (B-16).
    pub fn num_precincts_y(&self) -> u32
        ensures { result ≡ count (down self.now) }
    {
        self.y.count()
    }

    /// What refuses the precincts: sizes that give none, or an end at 2^32 or behind it. Nothing where there are none.
    pub fn refusal(&self) -> Option<DecodeError>
        ensures { result ≡ refusal (across self.now) (down self.now) }
    {
        if self.num_precincts_x() == 0 || self.num_precincts_y() == 0 {
            return None;
        }
        if self.x.is_unfit() || self.y.is_unfit() {
            return Some(DecodingError::InvalidPrecinct.into());
        }
        if self.x.is_far() || self.y.is_far() {
            return Some(DecodingError::PrecinctTooFar.into());
        }
        None
    }

    /// The number of precincts, if they are not refused.
    pub fn num_precincts(&self) -> Result<u64, DecodeError>
        ensures { Counted (across self.now) (down self.now) result }
    {
        if let Some(fault) = self.refusal() {
            return Err(fault);
        }
        Ok(u64::from(self.num_precincts_x()) * u64::from(self.num_precincts_y()))
    }

    /// Precinct `k`, row by row, if there is one and the precincts are not refused.
    pub fn precinct(&self, k: u64) -> Result<PrecinctData, DecodeError>
        ensures { PrecinctAnswer (across self.now) (down self.now) k result }
    {
        let Some(cell) = Cell::new(self.num_precincts_x(), self.num_precincts_y(), k) else {
            return Err(BookError::NoSuchIndex.into());
        };
        if let Some(fault) = self.refusal() {
            return Err(fault);
        }
        let column = AxisPrecinct {
            axis: self.x,
            k: cell.column(),
        };
        let row = AxisPrecinct {
            axis: self.y,
            k: cell.row(),
        };
        Ok(PrecinctData {
            r_x: column.start(),
            r_y: row.start(),
            rect: IntRect {
                x0: column.cover_start(),
                y0: row.cover_start(),
                x1: column.cover_end(),
                y1: row.cover_end(),
            },
            idx: k,
        })
    }
}
