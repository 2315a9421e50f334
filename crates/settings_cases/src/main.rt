//! Which segment sets a component's levels and flags, and step sizes at their limits: each answer on a line.
#![tactic(auto)]

use bands::sub_band::SubBandType;
use coding::coc::coc_marker;
use coding::cod::cod_marker;
use faults::decode::DecodeError;
use layouts::header::HeaderKind;
use quantization::markers::qcd_marker;
use reader::reader::BitReader;
use settings::inherit::{Setting, main_settings};
use settings::rows::ComponentSettings;
use std::io;

/// A COD with one layer, read from bytes.
fn cod(flags: u8, levels: u8) -> Setting {
    let mut bytes = [0; 48];
    bytes[1] = 12;
    bytes[2] = flags;
    bytes[5] = 1;
    bytes[7] = levels;
    match cod_marker(&mut BitReader::new(&bytes, 0)) {
        Ok(cod) => Setting::Cod(cod),
        Err(_) => unread(),
    }
}

/// A COC, read from bytes.
fn coc(index: u8, flags: u8, levels: u8) -> Setting {
    let mut bytes = [0; 48];
    bytes[1] = 9;
    bytes[2] = index;
    bytes[3] = flags;
    bytes[4] = levels;
    match coc_marker(&mut BitReader::new(&bytes, 0), HeaderKind::Main, 2) {
        Ok((index, coc)) => Setting::Coc(index, coc),
        Err(_) => unread(),
    }
}

/// A QCD, read from bytes behind its marker.
fn qcd(bytes: &[u8]) -> Setting {
    match qcd_marker(&mut BitReader::new(bytes, 0)) {
        Ok(qcd) => Setting::Qcd(qcd),
        Err(_) => unread(),
    }
}

// What stands for a segment that is not read: it shows as 99 guard bits.
fn unread() -> Setting {
    let mut info = ComponentSettings::blank().quantization;
    info.guard = 99;
    Setting::Qcd(info)
}

// As these cases print a row: what COD and COC set of it.
fn show(rt: &HostRuntime, label: &str, row: &ComponentSettings) -> io::Result<()> {
    println!(rt;
        "{label}: flags {}, levels {}",
        row.flags.raw, row.parameters.levels
    )
}

fn rank(rt: &HostRuntime) -> io::Result<()> {
    let main = main_settings(0, &[cod(6, 3)]);
    show(rt, "main COD", &main)?;
    show(rt, "COC", &main.after_all(0, &[coc(0, 1, 5)]))?;
    show(
        rt,
        "COC of another component",
        &main.after_all(0, &[coc(1, 1, 5)]),
    )?;
    show(rt, "COD", &main.after_all(0, &[cod(2, 2)]))?;
    show(
        rt,
        "COC, COD",
        &main.after_all(0, &[coc(0, 1, 5), cod(2, 2)]),
    )?;
    show(
        rt,
        "COC, COD, COC",
        &main.after_all(0, &[coc(0, 1, 5), cod(2, 2), coc(0, 0, 4)]),
    )?;
    show(
        rt,
        "COD, COC",
        &main.after_all(0, &[cod(3, 2), coc(0, 0, 1)]),
    )?;
    let main = main_settings(0, &[coc(0, 1, 5), cod(6, 3)]);
    show(rt, "main COC, COD", &main)?;
    show(rt, "main COC, COD; COD", &main.after_all(0, &[cod(0, 1)]))
}

// As these cases print a fault: its number alone.
fn show_fault(rt: &HostRuntime, fault: &DecodeError) -> io::Result<()> {
    println!(rt; "fault {}", fault.number())
}

fn step(
    rt: &HostRuntime,
    row: &ComponentSettings,
    resolution: u8,
    band: SubBandType,
) -> io::Result<()> {
    print!(rt; "resolution {resolution}, {band:?}: ")?;
    match row.exponent_mantissa(resolution, band) {
        Ok((exponent, mantissa)) => println!(rt; "{exponent}, {mantissa}"),
        Err(fault) => show_fault(rt, &fault),
    }
}

fn derived(rt: &HostRuntime) -> io::Result<()> {
    println!(rt; "derived from 3, 5 with 5 levels")?;
    let row = main_settings(0, &[cod(0, 5), qcd(&[0, 5, 0x41, 0x18, 0x05])]);
    step(rt, &row, 0, SubBandType::HighHigh)?;
    step(rt, &row, 1, SubBandType::LowLow)?;
    step(rt, &row, 2, SubBandType::HighLow)?;
    step(rt, &row, 4, SubBandType::LowHigh)?;
    step(rt, &row, 5, SubBandType::HighHigh)?;
    step(rt, &row, 6, SubBandType::HighHigh)
}

fn expounded(rt: &HostRuntime) -> io::Result<()> {
    println!(rt; "four step sizes with 2 levels")?;
    let row = main_settings(
        0,
        &[
            cod(0, 2),
            qcd(&[0, 11, 0x42, 0x08, 0x01, 0x10, 0x02, 0x18, 0x03, 0x27, 0xFF]),
        ],
    );
    step(rt, &row, 0, SubBandType::HighHigh)?;
    step(rt, &row, 1, SubBandType::HighLow)?;
    step(rt, &row, 1, SubBandType::LowHigh)?;
    step(rt, &row, 1, SubBandType::HighHigh)?;
    step(rt, &row, 1, SubBandType::LowLow)?;
    step(rt, &row, 2, SubBandType::HighLow)?;
    step(rt, &row, 3, SubBandType::HighLow)
}

fn enough(rt: &HostRuntime, label: &str, levels: u8, bytes: &[u8]) -> io::Result<()> {
    print!(rt; "{label}: ")?;
    let row = main_settings(0, &[cod(0, levels), qcd(bytes)]);
    match row.validate(77) {
        Ok(()) => println!(rt; "enough"),
        Err(fault) => show_fault(rt, &fault),
    }
}

fn main(rt: HostRuntime) -> io::Result<()> {
    rank(&rt)?;
    derived(&rt)?;
    expounded(&rt)?;
    enough(&rt, "no step size", 1, &[0, 3, 0x40])?;
    enough(&rt, "three for one level", 1, &[0, 6, 0x40, 8, 8, 8])?;
    enough(&rt, "four for one level", 1, &[0, 7, 0x40, 8, 8, 8, 8])?;
    enough(&rt, "one for no level", 0, &[0, 4, 0x40, 8])?;
    enough(
        &rt,
        "a derived one for 32 levels",
        32,
        &[0, 5, 0x41, 0x18, 0x05],
    )
}
