ghost use Rattle.std.specs.Prelude.{◌≡◌, ◌<◌};
ghost use Rattle.coding.specs.Styles.{IsOrder, IsStyle, IsTransform, bit};

use layouts::reserved::ReservedNumber;

/// In which order a tile's packets follow one another (Table A.16).
#[derive(Clone, Copy, Debug, PartialEq, Eq)]
pub enum ProgressionOrder {
    LayerResolutionComponentPosition,
    ResolutionLayerComponentPosition,
    ResolutionPositionComponentLayer,
    PositionComponentResolutionLayer,
    ComponentPositionResolutionLayer,
}

impl TryFrom<u8> for ProgressionOrder {
    type Error = ReservedNumber;

    ghost try_from_gives = { IsOrder };

    fn try_from(value: u8) -> Result<ProgressionOrder, ReservedNumber> {
        match value {
            0 => Ok(ProgressionOrder::LayerResolutionComponentPosition),
            1 => Ok(ProgressionOrder::ResolutionLayerComponentPosition),
            2 => Ok(ProgressionOrder::ResolutionPositionComponentLayer),
            3 => Ok(ProgressionOrder::PositionComponentResolutionLayer),
            4 => Ok(ProgressionOrder::ComponentPositionResolutionLayer),
            _ => Err(ReservedNumber(value)),
        }
    }
}

/// The wavelet transformation (Table A.20).
#[derive(Clone, Copy, Debug, PartialEq, Eq)]
pub enum WaveletTransform {
    Irreversible97,
    Reversible53,
}

impl TryFrom<u8> for WaveletTransform {
    type Error = ReservedNumber;

    ghost try_from_gives = { IsTransform };

    fn try_from(value: u8) -> Result<WaveletTransform, ReservedNumber> {
        match value {
            0 => Ok(WaveletTransform::Irreversible97),
            1 => Ok(WaveletTransform::Reversible53),
            _ => Err(ReservedNumber(value)),
        }
    }
}

// Bit k of a byte, from the lowest.
fn bit_of(value: u8, k: u8) -> bool
    requires { k < 8 }
    ensures { result ≡ bit k value }
{
    (value >> k) & 1 == 1
}

/// The coding style byte Scod or Scoc (Tables A.13 and A.23).
#[derive(Clone, Copy, Debug, PartialEq, Eq)]
pub struct CodingStyleFlags {
    pub raw: u8,
}

impl CodingStyleFlags {
    /// Whether the segment has precinct sizes.
    pub fn has_precincts(&self) -> bool
        ensures { result ≡ bit 0 self.now.raw }
    {
        bit_of(self.raw, 0)
    }

    /// Whether SOP marker segments may stand before packets.
    pub fn may_use_sop_markers(&self) -> bool
        ensures { result ≡ bit 1 self.now.raw }
    {
        bit_of(self.raw, 1)
    }

    /// Whether EPH markers stand behind packet headers.
    pub fn uses_eph_marker(&self) -> bool
        ensures { result ≡ bit 2 self.now.raw }
    {
        bit_of(self.raw, 2)
    }
}

/// How code-blocks are coded (Table A.19), without predictable termination, which is not read.
#[derive(Clone, Copy, Debug, PartialEq, Eq)]
pub struct CodeBlockStyle {
    /// Selective arithmetic coding bypass.
    pub bypass: bool,
    /// Context probabilities are reset at the end of each coding pass.
    pub reset: bool,
    /// Termination on each coding pass.
    pub termination: bool,
    /// Vertically causal context.
    pub causal: bool,
    /// Segmentation symbols.
    pub segmentation: bool,
}

impl From<u8> for CodeBlockStyle {
    ghost from_gives = { IsStyle };

    fn from(value: u8) -> CodeBlockStyle {
        CodeBlockStyle {
            bypass: bit_of(value, 0),
            reset: bit_of(value, 1),
            termination: bit_of(value, 2),
            causal: bit_of(value, 3),
            segmentation: bit_of(value, 5),
        }
    }
}
