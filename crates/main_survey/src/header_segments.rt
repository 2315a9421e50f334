ghost use Rattle.main_survey.specs.Passing.{PassedTo};

use crate::passed::Passed;
use faults::decode::{BookError, DecodeError, MarkerError};
use headers::found::{Found, Segment};
use headers::main_header::{MainHeader, next_main};
use settings::inherit::Setting;

// Goes through the segments behind SIZ up to SOT; their packets find `room` rows.
pub(crate) fn main_segments(header: MainHeader<'_>, room: usize) -> Result<Passed, DecodeError>
    ensures { PassedTo header.entry.codestream.now header.entry.csiz header.entry.segments room result }
{
    let mut reader = header.reader();
    let mut cod = false;
    let mut qcd = false;
    let mut packets = 0;
    loop {
        let found = next_main(&mut reader, header.csiz)?;
        let place = reader.offset();
        match found {
            Found::Stands(segment) => match segment {
                Segment::Sets(setting) => match setting {
                    Setting::Cod(_) => cod = true,
                    Setting::Qcd(_) => qcd = true,
                    _ => {}
                },
                Segment::Ppm(count) => {
                    if count > room - packets {
                        return Err(BookError::TableTooShort.into());
                    }
                    packets += count;
                }
                _ => {}
            },
            Found::Ends => {
                return Ok(Passed {
                    cod,
                    qcd,
                    packets,
                    place,
                });
            }
            Found::NoMarker => return Err(MarkerError::Invalid { place }.into()),
        }
    }
}
