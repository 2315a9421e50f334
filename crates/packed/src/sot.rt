ghost use Rattle.layouts.specs.Layouts.{Parses, fields};
ghost use Rattle.packed.specs.Sot.{MadeSot, sot_table};

use faults::segment::SegmentFault;
use layouts::markers::SOT;
use reader::reader::BitReader;

/// What SOT says of its tile-part, under the names of its fields.
#[derive(Clone, Copy, Debug, PartialEq, Eq)]
pub struct TilePartHeader {
    pub isot: u16,
    pub psot: u32,
    pub tpsot: u8,
    pub tnsot: u8,
}

/// Reads the SOT segment whose marker stands before the reader.
pub fn sot_marker(reader: &mut BitReader<'_>) -> Result<TilePartHeader, SegmentFault<SOT>>
    ensures { Parses (fields sot_table) MadeSot reader.old reader.new result }
{
    let _lsot = reader.read_u16()?;
    let isot = reader.read_u16()?;
    let psot = reader.read_u32()?;
    let tpsot = reader.read_byte()?;
    let tnsot = reader.read_byte()?;
    Ok(TilePartHeader {
        isot,
        psot,
        tpsot,
        tnsot,
    })
}
