ghost use Rattle.main_survey.specs.Main.{ComesTo, CountedIn, header_of, room_for};
ghost use Rattle.main_survey.specs.Passing.{SotTested};
ghost use Rattle.std.specs.Prelude.{◌≡◌};

use crate::header_segments::main_segments;
use crate::passed::Passed;
use crate::room::{MainSurvey, Room};
use faults::decode::{BookError, DecodeError, MarkerError};
use headers::main_header::MainHeader;
use layouts::markers::{COD, QCD};
use main_settings::validate_components;
use reader::reader::BitReader;
use segments::size::size_marker;

impl Room {
    // Whether there are rows for so many components and tiles, and for each component's settings in each tile.
    fn holds(&self, csiz: u16, tiles: u32) -> bool
        ensures { result ≡ room_for self.now csiz tiles }
    {
        usize::from(csiz) <= self.components
            && tiles as usize <= self.tiles
            && tiles as usize * usize::from(csiz) <= self.settings
    }
}

// What is tested at the SOT that ends the header.
fn test_at_sot(header: MainHeader<'_>, passed: Passed) -> Result<(), DecodeError>
    ensures { SotTested header.entry.codestream.now header.entry.csiz header.entry.segments passed result }
{
    let place = passed.place;
    if !passed.cod {
        return Err(MarkerError::Missing { code: COD, place }.into());
    }
    if !passed.qcd {
        return Err(MarkerError::Missing { code: QCD, place }.into());
    }
    validate_components(header, place)
}

/// Surveys the main header whose SIZ stands at `place`, for tables that have this room: all that can be refused, in its order, and what an
/// accepted header says.
pub fn survey_main(codestream: &[u8], place: usize, room: Room) -> Result<MainSurvey, DecodeError>
    ensures surveyed { ComesTo codestream.now place room (header_of codestream.now result) }
    ensures counted { CountedIn codestream.now result }
{
    let mut reader = BitReader::new(codestream, place);
    let size = size_marker(&mut reader)?;
    let tiles = size.num_tiles();
    if !room.holds(size.csiz, tiles) {
        return Err(BookError::TableTooShort.into());
    }
    let header = MainHeader {
        codestream,
        segments: reader.offset(),
        csiz: size.csiz,
    };
    let passed = main_segments(header, room.packets)?;
    test_at_sot(header, passed)?;
    Ok(MainSurvey {
        size,
        tiles,
        packets: passed.packets,
        segments: header.segments,
        place: passed.place,
    })
}
