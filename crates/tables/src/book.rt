use segments::size_data::SizeData;

/// What is known of a picture whose main header was accepted.
#[derive(Clone, Copy)]
pub struct OpenBook {
    pub size: SizeData,
    /// The number of tiles.
    pub tiles: u32,
    /// Whether tile-parts are read strictly.
    pub strict: bool,
    /// How many rows of the packets are filled.
    pub packets: usize,
    /// How many rows of the parts are filled.
    pub parts: usize,
    /// How many rows of the headers are filled.
    pub headers: usize,
}

/// A book: none of a picture until a main header is accepted.
#[derive(Clone, Copy)]
pub struct TileBook {
    pub open: Option<OpenBook>,
}
