use settings::inherit::Setting;

/// A segment of a header, with what is kept of it.
#[derive(Clone, Copy)]
pub enum Segment {
    /// COD, COC, QCD or QCC.
    Sets(Setting),
    /// PPM, and the number of its packets.
    Ppm(usize),
    /// PPT: its index, and where its bytes lie.
    Ppt { zppt: u8, place: usize, len: usize },
    /// A segment of which nothing is kept.
    Skipped,
}

/// What stands at a place of a header: a segment, the marker that ends the header, or no marker.
#[derive(Clone, Copy)]
pub enum Found {
    Stands(Segment),
    Ends,
    NoMarker,
}
