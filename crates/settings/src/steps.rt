ghost use Rattle.bands.specs.SubBands.{level};
ghost use Rattle.settings.specs.StepSizes.{DerivedAt, exponent_mantissa_of, step_row_of, validated};
ghost use Rattle.std.specs.Prelude.{◌≡◌};

use crate::rows::ComponentSettings;
use bands::decomposition::Decomposition;
use bands::resolution::Resolution;
use bands::sub_band::SubBandType;
use faults::decode::{DecodeError, ValidationError};
use quantization::info::{QuantizationStyle, StepSize};

// Which step size is a sub-band's.
fn step_row(at: Resolution, band: SubBandType) -> Option<u16>
    ensures { result ≡ step_row_of at.r band }
{
    if at.r == 0 {
        return Some(0);
    }
    let before = 3 * (u16::from(at.r) - 1);
    match band {
        SubBandType::LowLow => None,
        SubBandType::HighLow => Some(before + 1),
        SubBandType::LowHigh => Some(before + 2),
        SubBandType::HighHigh => Some(before + 3),
    }
}

// The first step size, for the sub-bands of another resolution (E-5).
fn derived_step(first: StepSize, at: Resolution) -> Result<(u16, u16), ValidationError>
    ensures { DerivedAt at.levels (level at.levels at.r) first result }
{
    let levels = u32::from(at.levels);
    let sum = u32::from(first.exponent) + u32::from(at.decomposition_level());
    if sum < levels {
        return Err(ValidationError::InvalidExponents);
    }
    Ok(((sum - levels) as u16, first.mantissa))
}

impl ComponentSettings {
    /// The exponent and the mantissa of a sub-band's step size.
    pub fn exponent_mantissa(
        &self,
        resolution: u8,
        band: SubBandType,
    ) -> Result<(u16, u16), DecodeError>
        ensures { result ≡ exponent_mantissa_of self.now.quantization self.now.parameters.levels resolution band }
    {
        let levels = self.parameters.levels;
        let at = Decomposition { levels }.resolution(resolution)?;
        match self.quantization.style {
            QuantizationStyle::ScalarDerived => {
                let first = self.quantization.step(0);
                let first = first.ok_or(ValidationError::MissingStepSize)?;
                Ok(derived_step(first, at)?)
            }
            QuantizationStyle::NoQuantization | QuantizationStyle::ScalarExpounded => {
                let step = step_row(at, band).and_then(|k| self.quantization.step(k));
                let step = step.ok_or(ValidationError::MissingStepSize)?;
                Ok((step.exponent, step.mantissa))
            }
        }
    }

    /// Whether there are enough step sizes; `place` is what a fault carries.
    pub fn validate(&self, place: usize) -> Result<(), DecodeError>
        ensures { result ≡ validated self.now.quantization self.now.parameters.levels place }
    {
        let levels = u16::from(self.parameters.levels);
        let count = self.quantization.count;
        if count == 0 {
            return Err(ValidationError::MissingPrecinctExponents { place }.into());
        }
        if self.quantization.style == QuantizationStyle::ScalarDerived {
            return Ok(());
        }
        if levels > 0 && count <= 3 * levels {
            return Err(ValidationError::InsufficientExponents { place }.into());
        }
        Ok(())
    }
}
