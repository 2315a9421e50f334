ghost use Rattle.std.specs.Prelude.{◌≡◌, ◌≤◌};
ghost use Rattle.coding.specs.Coding.{MadeParameters, MadePrecincts, block_table, parameters_layout, precinct_size_count, precinct_table, precincts_layout};
ghost use Rattle.coding.specs.Sections.{MadeBlock, MadeSize};
ghost use Rattle.layouts.specs.Layouts.{Parses, fields};

use crate::parameters::{CodingStyleParameters, PrecinctSize};
use crate::styles::{CodeBlockStyle, CodingStyleFlags, WaveletTransform};
use faults::segment::SegmentFault;
use reader::reader::BitReader;

// The most decomposition levels.
const MAX_LEVELS: u8 = 32;

// The precinct size of a resolution for which the segment has none.
const LARGEST: PrecinctSize = PrecinctSize {
    width: 15,
    height: 15,
};

// The coding parameters before any precinct size. The code-block's exponents are 2 more than their bytes, at most 10, and together at
// most 12.
fn block_fields<const CODE: u8>(
    reader: &mut BitReader<'_>,
) -> Result<CodingStyleParameters, SegmentFault<CODE>>
    ensures { Parses (fields block_table) MadeBlock reader.old reader.new result }
{
    let at = reader.offset();
    let levels = reader.read_byte()?;
    if levels > MAX_LEVELS {
        return Err(SegmentFault::value(at));
    }
    let at = reader.offset();
    let width = reader.read_byte()?;
    if width > 8 {
        return Err(SegmentFault::value(at));
    }
    let at = reader.offset();
    let height = reader.read_byte()?;
    if height > 8 || width + height > 8 {
        return Err(SegmentFault::value(at));
    }
    let style = CodeBlockStyle::from(reader.read_byte()?);
    let at = reader.offset();
    let Ok(transformation) = WaveletTransform::try_from(reader.read_byte()?) else {
        return Err(SegmentFault::value(at));
    };
    Ok(CodingStyleParameters {
        levels,
        width: width + 2,
        height: height + 2,
        style,
        transformation,
        precincts: [LARGEST; 33],
    })
}

// How many precinct sizes there are.
fn precinct_count(flags: CodingStyleFlags, levels: u8) -> u8
    requires { levels ≤ 32 }
    ensures { result ≡ precinct_size_count flags.raw levels }
{
    if flags.has_precincts() { levels + 1 } else { 0 }
}

fn precinct_size<const CODE: u8>(
    reader: &mut BitReader<'_>,
) -> Result<PrecinctSize, SegmentFault<CODE>>
    ensures { Parses (fields precinct_table) MadeSize reader.old reader.new result }
{
    let size = reader.read_byte()?;
    Ok(PrecinctSize {
        width: size % 16,
        height: size / 16,
    })
}

// The precinct sizes of the first `count` resolutions, and 15 for the others.
fn precinct_sizes<const CODE: u8>(
    reader: &mut BitReader<'_>,
    count: u8,
) -> Result<[PrecinctSize; 33], SegmentFault<CODE>>
    requires { count ≤ 33 }
    ensures { Parses (precincts_layout count) MadePrecincts reader.old reader.new result }
{
    let mut sizes = [LARGEST; 33];
    for size in sizes[..usize::from(count)].iter_mut() {
        *size = precinct_size(reader)?;
    }
    Ok(sizes)
}

// The coding parameters behind Scod or Scoc.
pub(crate) fn coding_style_parameters<const CODE: u8>(
    reader: &mut BitReader<'_>,
    flags: CodingStyleFlags,
) -> Result<CodingStyleParameters, SegmentFault<CODE>>
    ensures { Parses (parameters_layout flags.raw) MadeParameters reader.old reader.new result }
{
    let block = block_fields(reader)?;
    let precincts = precinct_sizes(reader, precinct_count(flags, block.levels))?;
    Ok(CodingStyleParameters {
        levels: block.levels,
        width: block.width,
        height: block.height,
        style: block.style,
        transformation: block.transformation,
        precincts,
    })
}
