ghost use Rattle.layouts.specs.Layouts.{Parses, fields};
ghost use Rattle.quantization.specs.Quantization.{MadeStep, MadeSteps, step_table, steps_layout};

use crate::info::{KEPT, QuantizationStyle, StepSize};
use faults::segment::SegmentFault;
use reader::reader::BitReader;

fn step_size<const CODE: u8>(
    reader: &mut BitReader<'_>,
    style: QuantizationStyle,
) -> Result<StepSize, SegmentFault<CODE>>
    ensures { Parses (fields (step_table style)) (MadeStep style) reader.old reader.new result }
{
    match style {
        QuantizationStyle::NoQuantization => {
            let value = reader.read_byte()?;
            Ok(StepSize {
                mantissa: 0,
                exponent: u16::from(value >> 3),
            })
        }
        QuantizationStyle::ScalarDerived | QuantizationStyle::ScalarExpounded => {
            let value = reader.read_u16()?;
            Ok(StepSize {
                mantissa: value % 0x800,
                exponent: value >> 11,
            })
        }
    }
}

// All step sizes are read, and the first KEPT are kept.
pub(crate) fn step_sizes<const CODE: u8>(
    reader: &mut BitReader<'_>,
    style: QuantizationStyle,
    count: u16,
) -> Result<[StepSize; KEPT], SegmentFault<CODE>>
    ensures { Parses (steps_layout style count) (MadeSteps style count) reader.old reader.new result }
{
    let mut steps = [StepSize::default(); KEPT];
    for k in 0..usize::from(count) {
        let step = step_size(reader, style)?;
        // `get_mut` would not say what the other elements hold.
        if k < KEPT {
            steps[k] = step;
        }
    }
    Ok(steps)
}
