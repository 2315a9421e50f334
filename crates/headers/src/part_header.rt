ghost use Rattle.headers.specs.Kinds.{part_kind_of};
ghost use Rattle.headers.specs.Standing.{Finds, behind_part, part_standing};
ghost use Rattle.reader.specs.Bytes.{marker_at};
ghost use Rattle.reader.specs.Reads.{bytes_of};
ghost use Rattle.std.specs.Prelude.{◌≡◌, Some};

use crate::contents::{
    cod_found, ppt_unless, qcd_found, skip_found, tile_coc_found, tile_qcc_found,
};
use crate::found::{Found, Segment};
use crate::kind::{Kind, part_kind};
use faults::decode::{DecodeError, MarkerError};
use layouts::markers::{COM, PLT};
use reader::reader::BitReader;

/// By what a tile-part header is read: the number of components, whether packets of the main header are kept, and whether a missing marker
/// is refused.
#[derive(Clone, Copy, Debug, PartialEq, Eq)]
pub struct PartRules {
    pub csiz: u16,
    pub packets: bool,
    pub strict: bool,
}

// What stands where the reader is, whose marker has the code byte `code`.
fn part_segment(
    reader: &mut BitReader<'_>,
    code: u8,
    rules: PartRules,
) -> Result<Found, DecodeError>
    requires { marker_at (bytes_of reader.old) reader.old.place ≡ Some code }
    ensures { Finds (behind_part (bytes_of reader.old) rules.csiz rules.packets reader.old.place (part_kind_of code)) reader.old reader.new result }
{
    let place = reader.offset();
    let kind = part_kind(code);
    if let Kind::Eoc = kind {
        return Ok(Found::Ends);
    }
    reader.read_marker()?;
    match kind {
        Kind::Sod => Ok(Found::Ends),
        Kind::Cod => cod_found(reader),
        Kind::Coc => tile_coc_found(reader, rules.csiz, place),
        Kind::Qcd => qcd_found(reader),
        Kind::Qcc => tile_qcc_found(reader, rules.csiz, place),
        Kind::Ppt => ppt_unless(reader, rules.packets, place),
        Kind::Plt => skip_found::<PLT>(reader),
        Kind::Com => skip_found::<COM>(reader),
        Kind::Bare => Ok(Found::Stands(Segment::Skipped)),
        Kind::Sot | Kind::Eoc | Kind::Ppm | Kind::Rgn | Kind::Tlm | Kind::Crg | Kind::Foreign =>
            Err(MarkerError::Unsupported { place }.into()),
    }
}

/// Reads what stands where the reader is in a tile-part header, with its contents. SOD ends the header and is read, EOC ends it and is left
/// unread.
pub fn next_part(reader: &mut BitReader<'_>, rules: PartRules) -> Result<Found, DecodeError>
    ensures { Finds (part_standing (bytes_of reader.old) rules.csiz rules.packets rules.strict reader.old.place) reader.old reader.new result }
{
    let Some(marker) = reader.peek_marker() else {
        if rules.strict {
            let place = reader.offset();
            return Err(MarkerError::Invalid { place }.into());
        }
        return Ok(Found::NoMarker);
    };
    part_segment(reader, marker, rules)
}
