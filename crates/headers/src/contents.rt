ghost use Rattle.headers.specs.Standing.{ComponentTested, Finds, as_read, coc, cod, ends, in_image, nothing, ppm, ppt, qcc, qcd, refused};
ghost use Rattle.coding.specs.Coding.{coc_layout, cod_layout};
ghost use Rattle.layouts.specs.Layouts.{here};
ghost use Rattle.layouts.specs.declared.header.HeaderKind.TheVariants.{Main, TilePart};
ghost use Rattle.packed.specs.Ppm.{ppm_reading};
ghost use Rattle.packed.specs.Ppt.{ppt_layout};
ghost use Rattle.packed.specs.Segment.{segment_layout};
ghost use Rattle.quantization.specs.Quantization.{qcc_layout, qcd_layout};
ghost use Rattle.faults.specs.declared.decode.DecodeError.TheVariants.{Tile};
ghost use Rattle.faults.specs.declared.decode.TileError.TheVariants.{PpmPptConflict};
ghost use Rattle.reader.specs.Reads.{bytes_of};
ghost use Rattle.std.specs.Prelude.{if◌then◌else◌};

use crate::found::{Found, Segment};
use coding::coc::coc_marker;
use coding::cod::cod_marker;
use faults::decode::{DecodeError, TileError, ValidationError};
use layouts::header::HeaderKind;
use packed::ppm::ppm_marker;
use packed::ppt::ppt_marker;
use packed::skip::skip_marker_segment;
use quantization::markers::{qcc_marker, qcd_marker};
use reader::reader::BitReader;
use settings::inherit::Setting;

// A function for each segment, since they differ in the call and in what is kept: a generic one would take both as closures.
pub(crate) fn cod_found(reader: &mut BitReader<'_>) -> Result<Found, DecodeError>
    ensures { Finds (as_read cod 82 (here cod_layout reader.old)) reader.old reader.new result }
{
    let cod = cod_marker(reader)?;
    Ok(Found::Stands(Segment::Sets(Setting::Cod(cod))))
}

pub(crate) fn coc_found(reader: &mut BitReader<'_>, csiz: u16) -> Result<Found, DecodeError>
    ensures { Finds (as_read coc 83 (here (coc_layout Main csiz) reader.old)) reader.old reader.new result }
{
    let (index, coc) = coc_marker(reader, HeaderKind::Main, csiz)?;
    Ok(Found::Stands(Segment::Sets(Setting::Coc(index, coc))))
}

pub(crate) fn qcd_found(reader: &mut BitReader<'_>) -> Result<Found, DecodeError>
    ensures { Finds (as_read qcd 92 (here qcd_layout reader.old)) reader.old reader.new result }
{
    let qcd = qcd_marker(reader)?;
    Ok(Found::Stands(Segment::Sets(Setting::Qcd(qcd))))
}

pub(crate) fn qcc_found(reader: &mut BitReader<'_>, csiz: u16) -> Result<Found, DecodeError>
    ensures { Finds (as_read qcc 93 (here (qcc_layout Main csiz) reader.old)) reader.old reader.new result }
{
    let (index, qcc) = qcc_marker(reader, HeaderKind::Main, csiz)?;
    Ok(Found::Stands(Segment::Sets(Setting::Qcc(index, qcc))))
}

pub(crate) fn ppm_found(reader: &mut BitReader<'_>) -> Result<Found, DecodeError>
    ensures { Finds (as_read ppm 96 (ppm_reading (bytes_of reader.old) reader.old.place)) reader.old reader.new result }
{
    let ppm = ppm_marker(reader)?;
    Ok(Found::Stands(Segment::Ppm(ppm.count)))
}

pub(crate) fn skip_found<const CODE: u8>(reader: &mut BitReader<'_>) -> Result<Found, DecodeError>
    ensures { Finds (as_read nothing CODE (here segment_layout reader.old)) reader.old reader.new result }
{
    skip_marker_segment::<CODE>(reader)?;
    Ok(Found::Stands(Segment::Skipped))
}

// A component must be one of the image's; the segment's marker stands at `place`.
fn test_component(index: u16, csiz: u16, place: usize) -> Result<(), ValidationError>
    ensures { ComponentTested csiz index place result }
{
    if index >= csiz {
        return Err(ValidationError::InvalidComponentMetadata { place });
    }
    Ok(())
}

// COC of a tile-part whose marker stands at `place`: its component is one of the image's.
pub(crate) fn tile_coc_found(
    reader: &mut BitReader<'_>,
    csiz: u16,
    place: usize,
) -> Result<Found, DecodeError>
    ensures { Finds (in_image csiz place (as_read coc 83 (here (coc_layout TilePart csiz) reader.old))) reader.old reader.new result }
{
    let (index, coc) = coc_marker(reader, HeaderKind::TilePart, csiz)?;
    test_component(index, csiz, place)?;
    Ok(Found::Stands(Segment::Sets(Setting::Coc(index, coc))))
}

// QCC of a tile-part, likewise.
pub(crate) fn tile_qcc_found(
    reader: &mut BitReader<'_>,
    csiz: u16,
    place: usize,
) -> Result<Found, DecodeError>
    ensures { Finds (in_image csiz place (as_read qcc 93 (here (qcc_layout TilePart csiz) reader.old))) reader.old reader.new result }
{
    let (index, qcc) = qcc_marker(reader, HeaderKind::TilePart, csiz)?;
    test_component(index, csiz, place)?;
    Ok(Found::Stands(Segment::Sets(Setting::Qcc(index, qcc))))
}

fn ppt_found(reader: &mut BitReader<'_>) -> Result<Found, DecodeError>
    ensures { Finds (as_read ppt 97 (here ppt_layout reader.old)) reader.old reader.new result }
{
    let ppt = ppt_marker(reader)?;
    Ok(Found::Stands(Segment::Ppt {
        zppt: ppt.zppt,
        place: ppt.place,
        len: ppt.data.len(),
    }))
}

// PPT whose marker stands at `place`, unless packets of the main header are kept.
pub(crate) fn ppt_unless(
    reader: &mut BitReader<'_>,
    packets: bool,
    place: usize,
) -> Result<Found, DecodeError>
    ensures { Finds (if packets then ends (refused (Tile (PpmPptConflict place))) else as_read ppt 97 (here ppt_layout reader.old)) reader.old reader.new result }
{
    if packets {
        return Err(TileError::PpmPptConflict { place }.into());
    }
    ppt_found(reader)
}
