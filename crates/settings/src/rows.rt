ghost use Rattle.settings.specs.Rows.{BlankComponent, BlankParameters, BlankSettings, blank_packed, blank_part, blank_tile};
ghost use Rattle.std.specs.Prelude.{◌≡◌};

use coding::parameters::{CodingStyleParameters, PrecinctSize};
use coding::styles::{CodeBlockStyle, CodingStyleFlags, ProgressionOrder, WaveletTransform};
use ordered::Sequenced;
use quantization::info::{KEPT, QuantizationInfo, QuantizationStyle, StepSize};
use rect::IntRect;
use segments::size_data::ComponentSizeInfo;

/// A component's settings in a tile; `coc` and `qcc` say whether the tile has a COC and a QCC of its own for it. They are flags and no
/// Options, since parameters and quantization are there in either case.
#[derive(Clone, Copy)]
pub struct ComponentSettings {
    pub flags: CodingStyleFlags,
    pub parameters: CodingStyleParameters,
    pub quantization: QuantizationInfo,
    pub coc: bool,
    pub qcc: bool,
}

/// A tile: its rectangle, and what COD says of it as a whole.
#[derive(Clone, Copy)]
pub struct TileRow {
    pub area: IntRect,
    pub progression: ProgressionOrder,
    pub layers: u16,
    pub mct: bool,
}

/// Packed packet headers, a packet of a PPM segment or the data of a PPT segment: the segment's index, and where the bytes lie in the
/// codestream.
#[derive(Clone, Copy, Default)]
pub struct PackedRow {
    pub index: u8,
    pub place: usize,
    pub len: usize,
}

/// A tile-part: its tile, where its body lies, and which rows of the headers are its own.
#[derive(Clone, Copy, Default)]
pub struct PartRow {
    pub tile: u32,
    pub place: usize,
    pub len: usize,
    pub header: usize,
    pub headers: usize,
}

impl Sequenced for PackedRow {
    ghost sequence = { λ row. row.index };

    fn sequence_idx(&self) -> u16 {
        u16::from(self.index)
    }
}

/// The row of no component.
pub fn blank_component() -> ComponentSizeInfo
    ensures { BlankComponent result }
{
    ComponentSizeInfo {
        precision: 1,
        xrsiz: 1,
        yrsiz: 1,
    }
}

/// Coding parameters of a blank row.
pub fn blank_parameters() -> CodingStyleParameters
    ensures { BlankParameters result }
{
    CodingStyleParameters {
        levels: 0,
        width: 2,
        height: 2,
        style: CodeBlockStyle {
            bypass: false,
            reset: false,
            termination: false,
            causal: false,
            segmentation: false,
        },
        transformation: WaveletTransform::Irreversible97,
        precincts: [PrecinctSize {
            width: 0,
            height: 0,
        }; 33],
    }
}

impl ComponentSettings {
    /// The row of a component that no segment has set: no `Default`, since the exponents of its code-blocks are 2.
    pub fn blank() -> ComponentSettings
        ensures { BlankSettings result }
    {
        ComponentSettings {
            flags: CodingStyleFlags { raw: 0 },
            parameters: blank_parameters(),
            quantization: QuantizationInfo {
                style: QuantizationStyle::NoQuantization,
                guard: 0,
                steps: [StepSize::default(); KEPT],
                count: 0,
            },
            coc: false,
            qcc: false,
        }
    }
}

impl TileRow {
    /// The row of no tile.
    pub fn blank() -> TileRow
        ensures { result ≡ blank_tile }
    {
        TileRow {
            area: IntRect::from_ltrb(0, 0, 0, 0),
            progression: ProgressionOrder::LayerResolutionComponentPosition,
            layers: 0,
            mct: false,
        }
    }
}

impl PackedRow {
    /// The row of no packed headers.
    pub fn blank() -> PackedRow
        ensures { result ≡ blank_packed }
    {
        PackedRow::default()
    }
}

impl PartRow {
    /// The row of no tile-part.
    pub fn blank() -> PartRow
        ensures { result ≡ blank_part }
    {
        PartRow::default()
    }
}
