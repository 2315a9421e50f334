//! Main headers, tile-part headers, component settings and packets: each answer on a line. Standard input holds the codestreams and what is
//! asked of them, as cases.py writes it.
#![tactic(auto)]

ghost use Rattle.std.specs.Prelude.{◌≤◌, length, IfOk};

use faults::decode::{DecodeError, MarkerError};
use faults::segment::{Cause, ReadFault};
use headers::main_header::MainHeader;
use headers::part_header::PartRules;
use main_packets::packet;
use main_settings::component_settings;
use main_survey::room::Room;
use main_survey::survey::survey_main;
use part_survey::survey::survey_tile_part;
use reader::reader::BitReader;
use settings::rows::ComponentSettings;
use std::io;
use std::io::Read;

/// How many bytes of the cases are read.
const LIMIT: usize = 32_768;

/// Room for most of the main headers.
const ENOUGH: Room = Room {
    components: 300,
    tiles: 300,
    settings: 300,
    packets: 64,
};

/// A codestream, the least length that it is cut to, and how many questions follow it.
#[derive(Clone, Copy)]
struct Subject<'a> {
    bytes: &'a [u8],
    from: usize,
    questions: u8,
}

/// What is asked.
#[derive(Clone, Copy)]
enum Question {
    Main {
        place: usize,
        room: Room,
    },
    Part {
        place: usize,
        tiles: u32,
        rules: PartRules,
    },
    Settings {
        segments: usize,
        csiz: u16,
        index: u16,
    },
    Packet {
        segments: usize,
        csiz: u16,
        k: usize,
    },
}

// As in `outline`: each read asks for all that is left, and an interrupted one is an error.
fn read_input(rt: &HostRuntime, buffer: &mut [u8]) -> io::Result<usize>
    ensures { IfOk result (λ n. n ≤ length buffer.old) }
{
    let mut input = rt.stdin();
    let mut filled = 0;
    for _ in 0..LIMIT {
        if filled >= buffer.len() {
            break;
        }
        let count = input.read(&mut buffer[filled..])?;
        if count == 0 {
            break;
        }
        filled += count;
    }
    Ok(filled)
}

fn read_usize(input: &mut BitReader<'_>) -> Result<usize, ReadFault> {
    Ok(input.read_u32()? as usize)
}

fn read_subject<'a>(input: &mut BitReader<'a>) -> Result<Subject<'a>, ReadFault> {
    let from = usize::from(input.read_u16()?);
    let count = usize::from(input.read_u16()?);
    let questions = input.read_byte()?;
    let bytes = input.read_bytes(count)?;
    Ok(Subject {
        bytes,
        from,
        questions,
    })
}

fn read_room(input: &mut BitReader<'_>) -> Result<Room, ReadFault> {
    Ok(Room {
        components: read_usize(input)?,
        tiles: read_usize(input)?,
        settings: read_usize(input)?,
        packets: read_usize(input)?,
    })
}

fn read_rules(input: &mut BitReader<'_>, csiz: u16) -> Result<PartRules, ReadFault> {
    Ok(PartRules {
        csiz,
        packets: input.read_byte()? == 1,
        strict: input.read_byte()? == 1,
    })
}

fn read_part(input: &mut BitReader<'_>) -> Result<Question, ReadFault> {
    let place = read_usize(input)?;
    let csiz = input.read_u16()?;
    let tiles = input.read_u32()?;
    let rules = read_rules(input, csiz)?;
    Ok(Question::Part {
        place,
        tiles,
        rules,
    })
}

fn read_question(input: &mut BitReader<'_>) -> Result<Question, ReadFault> {
    match input.read_byte()? {
        0 => Ok(Question::Main {
            place: read_usize(input)?,
            room: ENOUGH,
        }),
        1 => Ok(Question::Main {
            place: read_usize(input)?,
            room: read_room(input)?,
        }),
        2 => read_part(input),
        3 => Ok(Question::Settings {
            segments: read_usize(input)?,
            csiz: input.read_u16()?,
            index: input.read_u16()?,
        }),
        _ => Ok(Question::Packet {
            segments: read_usize(input)?,
            csiz: input.read_u16()?,
            k: read_usize(input)?,
        }),
    }
}

// As these cases print an answer: a word and its numbers.
fn show(rt: &HostRuntime, label: &str, numbers: &[usize]) -> io::Result<()> {
    print!(rt; "{label}")?;
    for number in numbers {
        print!(rt; ",{number}")?;
    }
    println!(rt; "")
}

fn show_fault(rt: &HostRuntime, fault: &DecodeError) -> io::Result<()> {
    let number = usize::from(fault.number());
    let Some(place) = fault.place() else {
        return show(rt, "fault", &[number]);
    };
    let DecodeError::Marker(marker) = fault else {
        return show(rt, "fault", &[number, place]);
    };
    match marker {
        MarkerError::Invalid { .. } | MarkerError::Unsupported { .. } => {
            show(rt, "fault", &[number, place])
        }
        MarkerError::Expected { code, .. } | MarkerError::Missing { code, .. } => {
            show(rt, "fault", &[number, place, usize::from(*code)])
        }
        MarkerError::ParseFailure { code, cause } => {
            let label = match cause {
                Cause::Short(_) => "short",
                Cause::Value(_) => "value",
            };
            show(rt, label, &[number, place, usize::from(*code)])
        }
    }
}

fn show_settings(rt: &HostRuntime, row: &ComponentSettings) -> io::Result<()> {
    let parameters = &row.parameters;
    let quantization = &row.quantization;
    let [precincts, ..] = parameters.precincts;
    let [step, ..] = quantization.steps;
    let numbers = [
        usize::from(row.flags.raw),
        usize::from(parameters.levels),
        usize::from(parameters.width),
        usize::from(parameters.height),
        parameters.transformation as usize,
        usize::from(precincts.width),
        usize::from(precincts.height),
        quantization.style as usize,
        usize::from(quantization.guard),
        usize::from(quantization.count),
        usize::from(step.exponent),
        usize::from(step.mantissa),
    ];
    show(rt, "settings", &numbers)
}

fn ask_main(rt: &HostRuntime, bytes: &[u8], place: usize, room: Room) -> io::Result<()> {
    match survey_main(bytes, place, room) {
        Ok(main) => {
            let csiz = usize::from(main.size.csiz);
            let tiles = main.tiles as usize;
            show(
                rt,
                "main",
                &[csiz, tiles, main.packets, main.segments, main.place],
            )
        }
        Err(fault) => show_fault(rt, &fault),
    }
}

fn ask_part(
    rt: &HostRuntime,
    bytes: &[u8],
    place: usize,
    tiles: u32,
    rules: PartRules,
) -> io::Result<()> {
    match survey_tile_part(bytes, place, tiles, rules) {
        Ok(part) => {
            let tile = usize::from(part.tile);
            let tpsot = usize::from(part.tpsot);
            match part.body {
                Some(body) => {
                    show(
                        rt,
                        "whole",
                        &[tile, tpsot, part.place, body.place, body.len, body.headers],
                    )
                }
                None => show(rt, "cut", &[tile, tpsot, part.place]),
            }
        }
        Err(fault) => show_fault(rt, &fault),
    }
}

fn ask(rt: &HostRuntime, codestream: &[u8], question: Question) -> io::Result<()> {
    match question {
        Question::Main { place, room } => ask_main(rt, codestream, place, room),
        Question::Part {
            place,
            tiles,
            rules,
        } => ask_part(rt, codestream, place, tiles, rules),
        Question::Settings {
            segments,
            csiz,
            index,
        } => {
            let header = MainHeader {
                codestream,
                segments,
                csiz,
            };
            show_settings(rt, &component_settings(header, index))
        }
        Question::Packet { segments, csiz, k } => {
            let header = MainHeader {
                codestream,
                segments,
                csiz,
            };
            match packet(header, k) {
                Some(row) => show(rt, "packet", &[usize::from(row.index), row.place, row.len]),
                None => show(rt, "none", &[]),
            }
        }
    }
}

// Asks of the codestream cut to each length from the least on, and of the whole.
fn ask_all(rt: &HostRuntime, subject: &Subject<'_>, question: Question) -> io::Result<()> {
    for count in subject.from..subject.bytes.len() {
        ask(rt, &subject.bytes[..count], question)?;
    }
    ask(rt, subject.bytes, question)
}

fn main(rt: HostRuntime) -> io::Result<()> {
    // With a Vec the program would trust the C library's heap too.
    let mut buffer = [0; LIMIT];
    let count = read_input(&rt, &mut buffer)?;
    let mut input = BitReader::new(&buffer[..count], 0);
    for _ in 0..LIMIT {
        let Ok(subject) = read_subject(&mut input) else {
            break;
        };
        for _ in 0..subject.questions {
            let Ok(question) = read_question(&mut input) else {
                break;
            };
            ask_all(&rt, &subject, question)?;
        }
    }
    Ok(())
}
