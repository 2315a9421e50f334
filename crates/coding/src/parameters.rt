ghost use Rattle.std.specs.Prelude.{◌+◌, ◌≤◌};

use crate::styles::{CodeBlockStyle, CodingStyleFlags, ProgressionOrder, WaveletTransform};

/// The fields of COD before the coding parameters.
#[derive(Clone, Copy)]
pub(crate) struct CodFields {
    pub(crate) flags: CodingStyleFlags,
    pub(crate) progression: ProgressionOrder,
    pub(crate) layers: u16,
    pub(crate) mct: bool,
}

/// The precinct exponents of a resolution.
#[derive(Clone, Copy, Debug, PartialEq, Eq)]
pub struct PrecinctSize {
    /// PPx.
    pub width: u8,
    /// PPy.
    pub height: u8,
    ghost narrow: { width ≤ 15 },
    ghost low: { height ≤ 15 },
}

/// The coding parameters, which COD and COC share. Every value keeps their ranges.
#[derive(Clone, Copy)]
pub struct CodingStyleParameters {
    /// The number of decomposition levels.
    pub levels: u8,
    /// The exponent of the code-block's width.
    pub width: u8,
    /// The exponent of the code-block's height.
    pub height: u8,
    pub style: CodeBlockStyle,
    pub transformation: WaveletTransform,
    /// The precinct size of each resolution, 15 and 15 where the segment has none for it and above the levels.
    pub precincts: [PrecinctSize; 33],
    ghost deep: { levels ≤ 32 },
    ghost wide: { (2 ≤ width) × (width ≤ 10) },
    ghost high: { (2 ≤ height) × (height ≤ 10) },
    ghost small: { width + height ≤ 12 },
}

/// The coding style of a component.
#[derive(Clone, Copy)]
pub struct CodingStyleComponent {
    pub flags: CodingStyleFlags,
    pub parameters: CodingStyleParameters,
}

/// What COD says: of the tile, and of every component that has no COC of its own.
#[derive(Clone, Copy)]
pub struct CodingStyleDefault {
    pub progression: ProgressionOrder,
    pub layers: u16,
    /// Whether the multiple component transformation is on.
    pub mct: bool,
    pub component: CodingStyleComponent,
}
