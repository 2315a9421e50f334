ghost use Rattle.coding.specs.Coding.{MadeCoc, coc_layout, coc_table};
ghost use Rattle.coding.specs.Sections.{MadeIndex};
ghost use Rattle.layouts.specs.Indices.{indexed};
ghost use Rattle.layouts.specs.Layouts.{Parses, fields};

use crate::fields::coding_style_parameters;
use crate::parameters::CodingStyleComponent;
use crate::styles::CodingStyleFlags;
use faults::segment::SegmentFault;
use layouts::header::HeaderKind;
use layouts::index::component_index;
use layouts::markers::COC;
use reader::reader::BitReader;

fn coc_fields(
    reader: &mut BitReader<'_>,
    header: HeaderKind,
    csiz: u16,
) -> Result<(u16, CodingStyleFlags), SegmentFault<COC>>
    ensures { Parses (fields (coc_table (indexed header csiz) csiz)) MadeIndex reader.old reader.new result }
{
    let _lcoc = reader.read_u16()?;
    let index = component_index(reader, header, csiz)?;
    let raw = reader.read_byte()?;
    Ok((index, CodingStyleFlags { raw }))
}

/// Reads COC, behind its marker: the component's index, which in a main header is refused if not below `csiz`, and its coding style.
pub fn coc_marker(
    reader: &mut BitReader<'_>,
    header: HeaderKind,
    csiz: u16,
) -> Result<(u16, CodingStyleComponent), SegmentFault<COC>>
    ensures { Parses (coc_layout header csiz) MadeCoc reader.old reader.new result }
{
    let (index, flags) = coc_fields(reader, header, csiz)?;
    let parameters = coding_style_parameters(reader, flags)?;
    Ok((index, CodingStyleComponent { flags, parameters }))
}
