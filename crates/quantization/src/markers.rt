ghost use Rattle.layouts.specs.Layouts.{Parses, fields};
ghost use Rattle.quantization.specs.Quantization.{MadeIndex, MadeQcc, MadeQcd, index_table, qcc_layout, qcd_layout};

use crate::info::QuantizationInfo;
use crate::parameters::quantization_parameters;
use faults::segment::SegmentFault;
use layouts::header::HeaderKind;
use layouts::index::{component_index, index_size};
use layouts::markers::{QCC, QCD};
use reader::reader::BitReader;

/// Reads a QCD segment behind its marker.
pub fn qcd_marker(reader: &mut BitReader<'_>) -> Result<QuantizationInfo, SegmentFault<QCD>>
    ensures { Parses qcd_layout MadeQcd reader.old reader.new result }
{
    let at = reader.offset();
    let length = reader.read_u16()?;
    if length < 3 {
        return Err(SegmentFault::value(at));
    }
    quantization_parameters(reader, length - 3)
}

// Lqcc and Cqcc: the component's index, and how many bytes the step sizes have.
fn qcc_fields(
    reader: &mut BitReader<'_>,
    header: HeaderKind,
    csiz: u16,
) -> Result<(u16, u16), SegmentFault<QCC>>
    ensures { Parses (fields (index_table header csiz)) (MadeIndex csiz) reader.old reader.new result }
{
    let least = index_size(csiz) + 3;
    let at = reader.offset();
    let length = reader.read_u16()?;
    if length < least {
        return Err(SegmentFault::value(at));
    }
    let index = component_index(reader, header, csiz)?;
    Ok((index, length - least))
}

/// Reads a QCC segment behind its marker: the component's index, which in a main header is refused if not below `csiz`, and what is said
/// of it.
pub fn qcc_marker(
    reader: &mut BitReader<'_>,
    header: HeaderKind,
    csiz: u16,
) -> Result<(u16, QuantizationInfo), SegmentFault<QCC>>
    ensures { Parses (qcc_layout header csiz) MadeQcc reader.old reader.new result }
{
    let (index, len) = qcc_fields(reader, header, csiz)?;
    let info = quantization_parameters(reader, len)?;
    Ok((index, info))
}
