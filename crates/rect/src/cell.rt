//! Cells of a grid, counted row by row.
ghost use Rattle.std.specs.Prelude.{◌≡◌, ◌*◌, ◌/◌, ◌%◌, ◌<◌, ◌≤◌, IfNone, IfSome};

/// Cell `k` of a grid of `columns` by `rows` cells.
#[derive(Clone, Copy, Debug, PartialEq, Eq)]
pub struct Cell {
    pub columns: u32,
    pub rows: u32,
    pub k: u64,
    ghost inside: { k < columns * rows },
}

impl Cell {
    /// Cell `k`, if there is one.
    pub fn new(columns: u32, rows: u32, k: u64) -> Option<Cell>
        ensures none { IfNone result (columns * rows ≤ k) }
        ensures grid { IfSome result (λ c. (c.columns ≡ columns) × (c.rows ≡ rows)) }
        ensures number { IfSome result (λ c. c.k ≡ k) }
    {
        if k >= u64::from(columns) * u64::from(rows) {
            return None;
        }
        Some(Cell { columns, rows, k })
    }

    /// The column that it stands in.
    pub fn column(self) -> u32
        ensures value { result ≡ self.k % self.columns }
        ensures below { result < self.columns }
    {
        (self.k % u64::from(self.columns)) as u32
    }

    /// The row that it stands in.
    #[tactic(auto, using(crate::proofs::Places::row_below))]
    pub fn row(self) -> u32
        ensures value { result ≡ self.k / self.columns }
        ensures below { result < self.rows }
    {
        (self.k / u64::from(self.columns)) as u32
    }
}
