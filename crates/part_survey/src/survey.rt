ghost use Rattle.std.specs.Prelude.{◌≡◌, ◌+◌, ◌≤◌, length, OnOk};
ghost use Rattle.part_survey.specs.Ends.{HeaderEnds, ppt_count_of};
ghost use Rattle.part_survey.specs.Part.{Surveyed, bounded, is_cut_short, follow, start_of};
ghost use Rattle.reader.specs.Reads.{SameData, bytes_of};

use faults::decode::{DecodeError, MarkerError, TileError};
use headers::found::{Found, Segment};
use headers::part_header::{PartRules, next_part};
use layouts::markers::{EOC, SOT};
use packed::sot::{TilePartHeader, sot_marker};
use reader::reader::BitReader;

/// A tile-part: the tile that it belongs to, its index in that tile, the place reached, and its body; none where its header is cut short.
#[derive(Clone, Copy, Debug, PartialEq, Eq)]
pub struct TilePartSurvey {
    pub tile: u16,
    pub tpsot: u8,
    pub place: usize,
    pub body: Option<TilePartBody>,
}

/// The body of a tile-part, `len` bytes from `place` on, behind a header with `headers` PPT segments.
#[derive(Clone, Copy, Debug, PartialEq, Eq)]
pub struct TilePartBody {
    pub place: usize,
    pub len: usize,
    pub headers: usize,
}

// Where a header ends, and the number of its PPT segments; none where it ends for want of a marker.
#[derive(Clone, Copy)]
struct HeaderEnd {
    place: usize,
    headers: Option<usize>,
}

// The size of SOT with its segment.
const SOT_SIZE: usize = 12;

// Reads SOT and its segment where the reader stands.
fn tile_part_start(reader: &mut BitReader<'_>, tiles: u32) -> Result<TilePartHeader, DecodeError>
    ensures start { result ≡ start_of (bytes_of reader.old) reader.old.place tiles }
    ensures same { SameData reader.old reader.new }
    ensures behind { OnOk result ((reader.new.place ≡ reader.old.place + 12) × (reader.new.place ≤ length (bytes_of reader.old))) }
{
    let place = reader.offset();
    if reader.read_marker()? != SOT {
        return Err(MarkerError::Expected { code: SOT, place }.into());
    }
    let start = sot_marker(reader)?;
    if u32::from(start.isot) >= tiles {
        return Err(TileError::InvalidIndex { place }.into());
    }
    if start.psot > 0 && (start.psot as usize) < SOT_SIZE {
        return Err(TileError::Invalid { place }.into());
    }
    Ok(start)
}

// 1 for PPT, 0 for any other; `Found::Stands(Segment::Ppt { .. })` as one pattern is not covered.
fn ppt_count(segment: Segment) -> usize
    ensures { result ≡ ppt_count_of segment }
{
    match segment {
        Segment::Ppt { .. } => 1,
        _ => 0,
    }
}

// Reads a header from behind its SOT segment to its end.
fn header_end(reader: &mut BitReader<'_>, rules: PartRules) -> Result<HeaderEnd, DecodeError>
    requires { reader.old.place ≤ length (bytes_of reader.old) }
    ensures { HeaderEnds (bytes_of reader.old) rules.csiz rules.packets rules.strict reader.old.place result }
{
    let mut headers: usize = 0;
    loop {
        match next_part(reader, rules)? {
            Found::Stands(segment) => headers += ppt_count(segment),
            Found::Ends => {
                return Ok(HeaderEnd {
                    place: reader.offset(),
                    headers: Some(headers),
                });
            }
            Found::NoMarker => {
                return Ok(HeaderEnd {
                    place: reader.offset(),
                    headers: None,
                });
            }
        }
    }
}

// How many bytes follow the SOT segment that ends at `behind`.
fn following(codestream: &[u8], behind: usize, psot: u32) -> usize
    requires { behind ≤ length codestream.now }
    ensures { result ≡ follow codestream.now behind psot }
{
    if psot != 0 {
        return (psot as usize).saturating_sub(SOT_SIZE);
    }
    let rest = &codestream[behind..];
    if rest.ends_with(&[0xFF, EOC]) {
        rest.len() - 2
    } else {
        rest.len()
    }
}

fn cut_short(start: TilePartHeader, place: usize) -> TilePartSurvey
    ensures { result ≡ is_cut_short start place }
{
    TilePartSurvey {
        tile: start.isot,
        tpsot: start.tpsot,
        place,
        body: None,
    }
}

// The tile-part at `place`, whose header has `headers` PPT segments and ends at `body`.
fn tile_part_end(
    codestream: &[u8],
    place: usize,
    start: TilePartHeader,
    headers: usize,
    body: usize,
    strict: bool,
) -> Result<TilePartSurvey, DecodeError>
    requires { place + 12 ≤ length codestream.now }
    ensures { result ≡ bounded codestream.now place strict start headers body (follow codestream.now (place + 12) start.psot) }
{
    let behind = place + SOT_SIZE;
    let rest = following(codestream, behind, start.psot);
    if body.saturating_sub(behind) > rest {
        if strict {
            return Err(TileError::Invalid { place }.into());
        }
        return Ok(cut_short(start, body));
    }
    if rest > codestream.len() - behind {
        return Err(TileError::Invalid { place }.into());
    }
    let end = behind + rest;
    Ok(TilePartSurvey {
        tile: start.isot,
        tpsot: start.tpsot,
        place: end,
        body: Some(TilePartBody {
            place: body,
            len: end - body,
            headers,
        }),
    })
}

/// Surveys the tile-part whose SOT stands at `place`, in a picture of `tiles` tiles. Where the rules are not strict, a header that breaks off
/// or is longer than its tile-part is cut short.
pub fn survey_tile_part(
    codestream: &[u8],
    place: usize,
    tiles: u32,
    rules: PartRules,
) -> Result<TilePartSurvey, DecodeError>
    ensures surveyed { Surveyed codestream.now place tiles rules.csiz rules.packets rules.strict result }
    ensures inside { OnOk result (place + 12 ≤ length codestream.now) }
{
    let mut reader = BitReader::new(codestream, place);
    let start = tile_part_start(&mut reader, tiles)?;
    let end = header_end(&mut reader, rules)?;
    match end.headers {
        Some(headers) => tile_part_end(codestream, place, start, headers, end.place, rules.strict),
        None => Ok(cut_short(start, end.place)),
    }
}
