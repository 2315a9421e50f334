//! What the segments of a main header make of each component's settings, and whether each has the step sizes that it needs.
#![tactic(auto)]

ghost use Rattle.main_settings.specs.Settled.{ComponentSettled, ComponentsTested};

use faults::decode::DecodeError;
use headers::found::{Found, Segment};
use headers::main_header::{MainHeader, next_main};
use settings::rows::ComponentSettings;

/// What the segments of a main header make of component `index`, for any bytes: where the header is refused, the segments before that count.
pub fn component_settings(header: MainHeader<'_>, index: u16) -> ComponentSettings
    ensures { ComponentSettled header.entry.codestream.now header.entry.csiz header.entry.segments index result }
{
    let mut reader = header.reader();
    let mut row = ComponentSettings::blank();
    while let Ok(found) = next_main(&mut reader, header.csiz) {
        let Found::Stands(segment) = found else {
            break;
        };
        if let Segment::Sets(setting) = segment {
            row = row.after(index, &setting);
        }
    }
    row.inherited()
}

/// Whether each component has the step sizes that it needs, or why the first that has not is refused; `place` is what a fault carries.
pub fn validate_components(header: MainHeader<'_>, place: usize) -> Result<(), DecodeError>
    ensures { ComponentsTested header.entry.codestream.now header.entry.csiz header.entry.segments place result }
{
    for index in 0..header.csiz {
        component_settings(header, index).validate(place)?;
    }
    Ok(())
}
