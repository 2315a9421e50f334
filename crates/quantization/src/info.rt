ghost use Rattle.quantization.specs.Quantization.{IsStyle, step_at};
ghost use Rattle.std.specs.Prelude.{◌≡◌};

use layouts::reserved::ReservedNumber;

/// How many step sizes are kept: one for each sub-band of 32 decomposition levels.
pub const KEPT: usize = 97;

/// How the step sizes are given (Table A.28).
#[derive(Clone, Copy, Debug, PartialEq, Eq)]
pub enum QuantizationStyle {
    NoQuantization,
    ScalarDerived,
    ScalarExpounded,
}

impl TryFrom<u8> for QuantizationStyle {
    type Error = ReservedNumber;

    ghost try_from_gives = { IsStyle };

    fn try_from(value: u8) -> Result<QuantizationStyle, ReservedNumber> {
        match value {
            0 => Ok(QuantizationStyle::NoQuantization),
            1 => Ok(QuantizationStyle::ScalarDerived),
            2 => Ok(QuantizationStyle::ScalarExpounded),
            _ => Err(ReservedNumber(value)),
        }
    }
}

/// The step size of a sub-band; without quantization the mantissa is 0.
#[derive(Clone, Copy, Debug, Default, PartialEq, Eq)]
pub struct StepSize {
    pub mantissa: u16,
    pub exponent: u16,
}

/// What QCD or QCC says: the style, the number of guard bits, the first 97 step sizes, and how many there are in all. Behind their
/// number, step sizes are 0. The count is the segment's own and may pass 97, so that the array is no `Vec`: rows are fixed memory.
#[derive(Clone, Copy, Debug)]
pub struct QuantizationInfo {
    pub style: QuantizationStyle,
    pub guard: u8,
    pub steps: [StepSize; KEPT],
    pub count: u16,
}

impl QuantizationInfo {
    /// Step size `k`: None from their number on, and for those that are not kept.
    pub fn step(&self, k: u16) -> Option<StepSize>
        ensures { result ≡ step_at self.now k }
    {
        if k < self.count {
            self.steps.get(usize::from(k)).copied()
        } else {
            None
        }
    }
}
