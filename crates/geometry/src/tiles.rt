//! The tiles of a grid.
ghost use Rattle.std.specs.Prelude.{◌≡◌, ◌*◌, ◌/◌, ◌%◌, length};
ghost use Rattle.rect.specs.Rects.{region};
ghost use Rattle.rect.specs.Spans.{area};
ghost use Rattle.rect.specs.Sums.{total, ExactlyOne};
ghost use Rattle.geometry.specs.Tiles.{columns, image_of, rows, grid_tiles, Joined, TileAnswer};

use crate::axis::TileAxis;
use crate::grid::TileGrid;
use rect::IntRect;
use rect::cell::Cell;

impl TileGrid {
    /// The grid of two directions, if there are fewer than 2^32 tiles.
    pub fn new(x: TileAxis, y: TileAxis) -> Option<TileGrid>
        ensures { Joined x y result }
    {
        x.num_tiles().checked_mul(y.num_tiles())?;
        Some(TileGrid { x, y })
    }

    /// The number of columns of tiles (B-5).
    pub fn num_x_tiles(&self) -> u32
        ensures { result ≡ columns self.now }
    {
        self.x.num_tiles()
    }

    /// The number of rows of tiles (B-5).
    pub fn num_y_tiles(&self) -> u32
        ensures { result ≡ rows self.now }
    {
        self.y.num_tiles()
    }

    /// The number of tiles.
    pub fn num_tiles(&self) -> u32
        ensures { result ≡ columns self.now * rows self.now }
    {
        self.num_x_tiles() * self.num_y_tiles()
    }

    /// The column of tile `idx` (B-6).
    pub fn tile_x_coord(&self, idx: u32) -> u32
        ensures { result ≡ idx % columns self.now }
    {
        idx % self.num_x_tiles()
    }

    /// The row of tile `idx` (B-6).
    pub fn tile_y_coord(&self, idx: u32) -> u32
        ensures { result ≡ idx / columns self.now }
    {
        idx / self.num_x_tiles()
    }

    /// Tile `idx`, if there is one (B-7 to B-10).
    #[tactic(auto, using(crate::proofs::TileLaws::tiles_number))]
    pub fn tile(&self, idx: u32) -> Option<IntRect>
        ensures { TileAnswer self.now idx result }
    {
        let cell = Cell::new(self.num_x_tiles(), self.num_y_tiles(), u64::from(idx))?;
        let p = cell.column();
        let q = cell.row();
        Some(IntRect::from_ltrb(
            self.x.tile_start(p),
            self.y.tile_start(q),
            self.x.tile_end(p),
            self.y.tile_end(q),
        ))
    }

    /// The image area. The tiles cut it up: every point of it lies in exactly one tile.
    #[tactic(auto, using(crate::proofs::TileLaws::tiles_number))]
    pub fn image_area(&self) -> IntRect
        ensures edges { region result ≡ image_of self.now }
        ensures number { length (grid_tiles self.now) ≡ columns self.now * rows self.now }
        ensures areas_add_up { total area (grid_tiles self.now) ≡ area (region result) }
        ensures exactly_one { ExactlyOne (region result) (grid_tiles self.now) }
    {
        IntRect::from_ltrb(self.x.offset, self.y.offset, self.x.size, self.y.size)
    }
}
