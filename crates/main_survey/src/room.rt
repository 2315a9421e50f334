use segments::size_data::SizeData;

/// How many rows the tables have that a main header fills.
#[derive(Clone, Copy)]
pub struct Room {
    pub components: usize,
    pub tiles: usize,
    /// Settings, a row for each component in each tile.
    pub settings: usize,
    pub packets: usize,
}

/// What an accepted main header says.
#[derive(Clone, Copy)]
pub struct MainSurvey {
    pub size: SizeData,
    /// The number of tiles.
    pub tiles: u32,
    /// The number of packets in PPM segments.
    pub packets: usize,
    /// Where the segments behind SIZ begin.
    pub segments: usize,
    /// The place of the SOT that ends the header.
    pub place: usize,
}
