ghost use Rattle.headers.specs.Kinds.{main_kind_of};
ghost use Rattle.headers.specs.Standing.{Finds, behind_main, main_standing};
ghost use Rattle.reader.specs.Bytes.{marker_at};
ghost use Rattle.reader.specs.Reads.{bytes_of};
ghost use Rattle.std.specs.Prelude.{◌≡◌, Some};

use crate::contents::{coc_found, cod_found, ppm_found, qcc_found, qcd_found, skip_found};
use crate::found::{Found, Segment};
use crate::kind::{Kind, main_kind};
use faults::decode::{DecodeError, MarkerError};
use layouts::markers::{COM, RGN, TLM};
use packed::skip::skip_loosely;
use reader::reader::BitReader;

/// The segments of a main header of `csiz` components: they stand in the codestream from the place `segments` on, which is behind SIZ.
#[derive(Clone, Copy)]
pub struct MainHeader<'a> {
    pub codestream: &'a [u8],
    pub segments: usize,
    pub csiz: u16,
}

impl<'a> MainHeader<'a> {
    /// A reader that stands at the first segment.
    pub fn reader(&self) -> BitReader<'a>
        ensures of { result.«data» ≡ self.now.codestream }
        ensures at { result.place ≡ self.now.segments }
    {
        BitReader::new(self.codestream, self.segments)
    }
}

// What stands where the reader is, whose marker has the code byte `code`.
fn main_segment(reader: &mut BitReader<'_>, code: u8, csiz: u16) -> Result<Found, DecodeError>
    requires { marker_at (bytes_of reader.old) reader.old.place ≡ Some code }
    ensures { Finds (behind_main (bytes_of reader.old) csiz reader.old.place (main_kind_of code)) reader.old reader.new result }
{
    let place = reader.offset();
    let kind = main_kind(code);
    if let Kind::Sot = kind {
        return Ok(Found::Ends);
    }
    reader.read_marker()?;
    match kind {
        Kind::Cod => cod_found(reader),
        Kind::Coc => coc_found(reader, csiz),
        Kind::Qcd => qcd_found(reader),
        Kind::Qcc => qcc_found(reader, csiz),
        Kind::Ppm => ppm_found(reader),
        Kind::Rgn => skip_found::<RGN>(reader),
        Kind::Tlm => skip_found::<TLM>(reader),
        Kind::Com => skip_found::<COM>(reader),
        Kind::Crg => {
            skip_loosely(reader);
            Ok(Found::Stands(Segment::Skipped))
        }
        Kind::Bare => Ok(Found::Stands(Segment::Skipped)),
        Kind::Sot | Kind::Sod | Kind::Eoc | Kind::Ppt | Kind::Plt | Kind::Foreign => {
            Err(MarkerError::Unsupported { place }.into())
        }
    }
}

/// Reads what stands where the reader is in a main header of `csiz` components, with its contents. SOT ends the header and is left unread.
pub fn next_main(reader: &mut BitReader<'_>, csiz: u16) -> Result<Found, DecodeError>
    ensures { Finds (main_standing (bytes_of reader.old) csiz reader.old.place) reader.old reader.new result }
{
    let Some(marker) = reader.peek_marker() else {
        return Ok(Found::NoMarker);
    };
    main_segment(reader, marker, csiz)
}
