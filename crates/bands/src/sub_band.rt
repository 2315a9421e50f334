//! The four kinds of sub-band.
ghost use Rattle.std.specs.Prelude.{◌≡◌};
ghost use Rattle.bands.specs.SubBands.{xo, yo};

/// Low or high frequencies across, then down.
#[derive(Clone, Copy, Debug, PartialEq, Eq)]
pub enum SubBandType {
    LowLow,
    HighLow,
    LowHigh,
    HighHigh,
}

impl SubBandType {
    /// xo_b: 1 where the sub-band has the high frequencies across (Table B.1). A number, since B-15 multiplies by it.
    pub fn xo(&self) -> u8
        ensures { result ≡ xo self.now }
    {
        match self {
            SubBandType::LowLow => 0,
            SubBandType::HighLow => 1,
            SubBandType::LowHigh => 0,
            SubBandType::HighHigh => 1,
        }
    }

    /// yo_b: 1 where the sub-band has the high frequencies down (Table B.1). A number, likewise.
    pub fn yo(&self) -> u8
        ensures { result ≡ yo self.now }
    {
        match self {
            SubBandType::LowLow => 0,
            SubBandType::HighLow => 0,
            SubBandType::LowHigh => 1,
            SubBandType::HighHigh => 1,
        }
    }
}
