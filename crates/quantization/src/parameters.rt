ghost use Rattle.layouts.specs.Layouts.{Parses};
ghost use Rattle.quantization.specs.Quantization.{MadeParameters, parameters_layout, step_count_of};
ghost use Rattle.std.specs.Prelude.{◌≡◌};

use crate::info::{QuantizationInfo, QuantizationStyle};
use crate::steps::step_sizes;
use faults::segment::SegmentFault;
use reader::reader::BitReader;

// How many step sizes are in `len` bytes.
fn step_count(style: QuantizationStyle, len: u16) -> u16
    ensures { result ≡ step_count_of style len }
{
    match style {
        QuantizationStyle::NoQuantization => len,
        QuantizationStyle::ScalarDerived => 1,
        QuantizationStyle::ScalarExpounded => len / 2,
    }
}

// Sqcd or Sqcc, and the step sizes in `len` bytes behind it.
pub(crate) fn quantization_parameters<const CODE: u8>(
    reader: &mut BitReader<'_>,
    len: u16,
) -> Result<QuantizationInfo, SegmentFault<CODE>>
    ensures { Parses (parameters_layout len) MadeParameters reader.old reader.new result }
{
    let at = reader.offset();
    let sq = reader.read_byte()?;
    let Ok(style) = QuantizationStyle::try_from(sq % 32) else {
        return Err(SegmentFault::value(at));
    };
    let count = step_count(style, len);
    let steps = step_sizes(reader, style, count)?;
    Ok(QuantizationInfo {
        style,
        guard: sq / 32,
        steps,
        count,
    })
}
