ghost use Rattle.coding.specs.Coding.{MadeCod, cod_layout, cod_table};
ghost use Rattle.coding.specs.Sections.{MadeHead};
ghost use Rattle.layouts.specs.Layouts.{Parses, fields};

use crate::fields::coding_style_parameters;
use crate::parameters::{CodFields, CodingStyleComponent, CodingStyleDefault};
use crate::styles::{CodingStyleFlags, ProgressionOrder};
use faults::segment::SegmentFault;
use layouts::markers::COD;
use reader::reader::BitReader;

/// The most layers that are taken.
pub const MAX_LAYERS: u16 = 32;

fn cod_fields(reader: &mut BitReader<'_>) -> Result<CodFields, SegmentFault<COD>>
    ensures { Parses (fields cod_table) MadeHead reader.old reader.new result }
{
    let _lcod = reader.read_u16()?;
    let raw = reader.read_byte()?;
    let at = reader.offset();
    let Ok(progression) = ProgressionOrder::try_from(reader.read_byte()?) else {
        return Err(SegmentFault::value(at));
    };
    let at = reader.offset();
    let layers = reader.read_u16()?;
    if layers == 0 || layers > MAX_LAYERS {
        return Err(SegmentFault::value(at));
    }
    let mct = reader.read_byte()? == 1;
    Ok(CodFields {
        flags: CodingStyleFlags { raw },
        progression,
        layers,
        mct,
    })
}

/// Reads COD, behind its marker.
pub fn cod_marker(reader: &mut BitReader<'_>) -> Result<CodingStyleDefault, SegmentFault<COD>>
    ensures { Parses cod_layout MadeCod reader.old reader.new result }
{
    let head = cod_fields(reader)?;
    let parameters = coding_style_parameters(reader, head.flags)?;
    Ok(CodingStyleDefault {
        progression: head.progression,
        layers: head.layers,
        mct: head.mct,
        component: CodingStyleComponent {
            flags: head.flags,
            parameters,
        },
    })
}
