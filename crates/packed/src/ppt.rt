ghost use Rattle.layouts.specs.Layouts.{Parses};
ghost use Rattle.packed.specs.Ppt.{MadePpt, ppt_layout};

use faults::segment::SegmentFault;
use layouts::markers::PPT;
use reader::reader::BitReader;

/// Packed packet headers of a tile-part: the index of the segment, and its bytes, which stand at `place`. A type for the two, shared with
/// `PpmPacket`, would only lengthen the paths.
#[derive(Clone, Copy)]
pub struct PptMarkerData<'a> {
    pub zppt: u8,
    pub place: usize,
    pub data: &'a [u8],
}

/// Reads the PPT segment whose marker stands before the reader.
pub fn ppt_marker<'a>(reader: &mut BitReader<'a>) -> Result<PptMarkerData<'a>, SegmentFault<PPT>>
    ensures { Parses ppt_layout (MadePpt reader.old) reader.old reader.new result }
{
    let at = reader.offset();
    let length = reader.read_u16()?;
    if length < 3 {
        return Err(SegmentFault::value(at));
    }
    let zppt = reader.read_byte()?;
    let place = reader.offset();
    let data = reader.read_bytes(usize::from(length) - 3)?;
    Ok(PptMarkerData { zppt, place, data })
}
