ghost use Rattle.layouts.specs.Indices.{IsAlone, IsIndex, index_layout, index_width};
ghost use Rattle.layouts.specs.Layouts.{Parses, size};
ghost use Rattle.reader.specs.Reads.{Advances};
ghost use Rattle.std.specs.Prelude.{◌≡◌};

use crate::header::HeaderKind;
use faults::segment::{ReadFault, SegmentFault};
use reader::reader::BitReader;

/// How many bytes a component index has.
pub fn index_size(csiz: u16) -> u16
    ensures { result ≡ size (index_width csiz) }
{
    if csiz < 257 { 1 } else { 2 }
}

fn any_index(reader: &mut BitReader<'_>, csiz: u16) -> Result<u16, ReadFault>
    ensures { Advances (size (index_width csiz)) (IsIndex csiz) reader.old reader.new result }
{
    if csiz < 257 {
        let index = reader.read_byte()?;
        Ok(u16::from(index))
    } else {
        reader.read_u16()
    }
}

/// Reads a component index, which in a main header is refused if not below `csiz`.
pub fn component_index<const CODE: u8>(
    reader: &mut BitReader<'_>,
    header: HeaderKind,
    csiz: u16,
) -> Result<u16, SegmentFault<CODE>>
    ensures { Parses (index_layout header csiz) IsAlone reader.old reader.new result }
{
    let at = reader.offset();
    let index = any_index(reader, csiz)?;
    if header == HeaderKind::Main && index >= csiz {
        return Err(SegmentFault::value(at));
    }
    Ok(index)
}
