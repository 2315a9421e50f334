//! The code-blocks of a sub-band in one precinct, by number.
ghost use Rattle.std.specs.Prelude.{◌≡◌, ◌≤◌, map, length};
ghost use Rattle.std.specs.List.{range_with_len};
ghost use Rattle.rect.specs.Rects.{region};
ghost use Rattle.rect.specs.Spans.{area};
ghost use Rattle.rect.specs.Sums.{total, ExactlyOne};
ghost use Rattle.blocks.specs.Asked.{block_of, blocks_of, columns, rows, AllProper, BlockAnswer};

use crate::axis::BlockAxis;
use crate::cells::CodeBlocks;
use rect::IntRect;
use rect::cell::Cell;

impl CodeBlocks {
    fn x_axis(self) -> BlockAxis
        ensures span { (result.from ≡ self.rect.x0) × (result.to ≡ self.rect.x1) }
        ensures size { result.exponent ≡ self.xcb }
    {
        BlockAxis {
            from: self.rect.x0,
            to: self.rect.x1,
            exponent: self.xcb,
        }
    }

    fn y_axis(self) -> BlockAxis
        ensures span { (result.from ≡ self.rect.y0) × (result.to ≡ self.rect.y1) }
        ensures size { result.exponent ≡ self.ycb }
    {
        BlockAxis {
            from: self.rect.y0,
            to: self.rect.y1,
            exponent: self.ycb,
        }
    }

    /// The number of columns of code-blocks.
    pub fn num_columns(&self) -> u32
        ensures { result ≡ columns self.now }
    {
        self.x_axis().count()
    }

    /// The number of rows of code-blocks.
    pub fn num_rows(&self) -> u32
        ensures { result ≡ rows self.now }
    {
        self.y_axis().count()
    }

    /// The number of code-blocks. They cut up what the precinct has of the sub-band, none is empty, and there are no more than samples.
    pub fn num_code_blocks(&self) -> u64
        ensures number { result ≡ length (blocks_of self.now) }
        ensures closed { blocks_of self.now ≡ map (block_of self.now) (range_with_len 0 result) }
        ensures areas_add_up { total area (blocks_of self.now) ≡ area (region self.now.rect) }
        ensures exactly_one { ExactlyOne (region self.now.rect) (blocks_of self.now) }
        ensures all_proper { AllProper self.now }
        ensures few { result ≤ area (region self.now.rect) }
    {
        u64::from(self.num_columns()) * u64::from(self.num_rows())
    }

    /// Code-block `k`, row by row, if there is one.
    #[tactic(auto, using(crate::proofs::Numbered::number_of))]
    pub fn code_block(&self, k: u64) -> Option<IntRect>
        ensures { BlockAnswer self.now k result }
    {
        let cell = Cell::new(self.num_columns(), self.num_rows(), k)?;
        let i = cell.column();
        let j = cell.row();
        let x = self.x_axis();
        let y = self.y_axis();
        Some(IntRect::from_ltrb(
            x.block_start(i),
            y.block_start(j),
            x.block_end(i),
            y.block_end(j),
        ))
    }
}
