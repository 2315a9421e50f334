//! SOT, PPM, PPT and segments that are skipped, whole, at their limits and cut at every byte: each answer on a line. The segments stand behind
//! three other bytes, so that places count from the codestream's start.
#![tactic(auto)]

use layouts::markers::COM;
use packed::ppm::{PpmMarkerData, ppm_marker};
use packed::ppt::ppt_marker;
use packed::skip::{skip_loosely, skip_marker_segment};
use packed::sot::sot_marker;
use reader::reader::BitReader;
use std::io;

fn sot(rt: &HostRuntime, bytes: &[u8]) -> io::Result<()> {
    let mut reader = BitReader::new(bytes, 3);
    match sot_marker(&mut reader) {
        Ok(sot) => print!(rt; "SOT {},{},{},{}", sot.isot, sot.psot, sot.tpsot, sot.tnsot)?,
        Err(fault) => print!(rt; "{}", fault.cause)?,
    }
    println!(rt; ", ends at {}", reader.offset())
}

fn ppt(rt: &HostRuntime, bytes: &[u8]) -> io::Result<()> {
    let mut reader = BitReader::new(bytes, 3);
    match ppt_marker(&mut reader) {
        Ok(ppt) => print!(rt;
            "PPT {}, {} bytes at {}",
            ppt.zppt,
            ppt.data.len(),
            ppt.place
        )?,
        Err(fault) => print!(rt; "{}", fault.cause)?,
    }
    println!(rt; ", ends at {}", reader.offset())
}

// As these cases print the packets of a PPM segment.
fn show_packets(rt: &HostRuntime, ppm: &PpmMarkerData<'_>) -> io::Result<()> {
    print!(rt; "PPM {}, {} packets:", ppm.zppm, ppm.count)?;
    let mut packets = ppm.packets;
    for packet in packets.by_ref().take(ppm.count) {
        print!(rt; " {} at {}", packet.data.len(), packet.place)?;
    }
    print!(rt; ", more {}", packets.next().is_some())
}

fn ppm(rt: &HostRuntime, bytes: &[u8]) -> io::Result<()> {
    let mut reader = BitReader::new(bytes, 3);
    match ppm_marker(&mut reader) {
        Ok(ppm) => show_packets(rt, &ppm)?,
        Err(fault) => print!(rt; "{}", fault.cause)?,
    }
    println!(rt; ", ends at {}", reader.offset())
}

fn skip(rt: &HostRuntime, bytes: &[u8]) -> io::Result<()> {
    let mut reader = BitReader::new(bytes, 3);
    let mut loose = reader;
    skip_loosely(&mut loose);
    print!(rt; "loosely {}, ", loose.offset())?;
    match skip_marker_segment::<COM>(&mut reader) {
        Ok(()) => println!(rt; "skipped to {}", reader.offset()),
        Err(fault) => println!(rt; "{}, ends at {}", fault.cause, reader.offset()),
    }
}

// The answer to each number of first bytes alone.
fn cut<F: Fn(&HostRuntime, &[u8]) -> io::Result<()>>(
    rt: &HostRuntime,
    bytes: &[u8],
    show: F,
) -> io::Result<()>
    requires { F.IsAlwaysCallable show }
{
    for count in 0..bytes.len() {
        print!(rt; "{count} bytes: ")?;
        show(rt, &bytes[..count])?;
    }
    Ok(())
}

fn sots(rt: &HostRuntime) -> io::Result<()> {
    let whole = [1, 2, 3, 0, 0x0A, 0, 3, 0, 0, 0, 0x0E, 0, 1];
    sot(rt, &whole)?;
    sot(
        rt,
        &[
            1, 2, 3, 0, 0, 0xFF, 0xFF, 0xFF, 0xFF, 0xFF, 0xFF, 0xFE, 0xFF,
        ],
    )?;
    cut(rt, &whole, sot)
}

fn ppts(rt: &HostRuntime) -> io::Result<()> {
    let whole = [1, 2, 3, 0, 6, 5, 0xAA, 0xBB, 0xCC, 0xDD];
    ppt(rt, &whole)?;
    ppt(rt, &[1, 2, 3, 0, 3, 7])?;
    ppt(rt, &[1, 2, 3, 0, 2, 7])?;
    ppt(rt, &[1, 2, 3, 0, 4, 7])?;
    cut(rt, &whole, ppt)
}

fn ppms(rt: &HostRuntime) -> io::Result<()> {
    let whole = [
        1, 2, 3, 0, 0x0E, 2, 0, 0, 0, 3, 0xAA, 0xBB, 0xCC, 0, 0, 0, 0, 0xFF,
    ];
    ppm(rt, &whole)?;
    ppm(rt, &[1, 2, 3, 0, 0x0B, 0, 0, 0, 0, 0, 0, 0, 0, 0])?;
    ppm(rt, &[1, 2, 3, 0, 3, 9])?;
    ppm(rt, &[1, 2, 3, 0, 2, 9])?;
    ppm(rt, &[1, 2, 3, 0, 1, 9])?;
    ppm(rt, &[1, 2, 3, 0, 6, 9, 0, 0, 0])?;
    ppm(rt, &[1, 2, 3, 0, 8, 9, 0, 0, 0, 2, 0xAA, 0xBB])?;
    ppm(rt, &[1, 2, 3, 0, 8, 9, 0xFF, 0xFF, 0xFF, 0xFF, 0xAA])?;
    cut(rt, &whole, ppm)
}

fn skips(rt: &HostRuntime) -> io::Result<()> {
    let whole = [1, 2, 3, 0, 4, 0xAA, 0xBB, 0xCC];
    skip(rt, &whole)?;
    skip(rt, &[1, 2, 3, 0, 2])?;
    skip(rt, &[1, 2, 3, 0, 1, 0xAA])?;
    skip(rt, &[1, 2, 3, 0, 5, 0xAA, 0xBB])?;
    cut(rt, &whole, skip)
}

fn main(rt: HostRuntime) -> io::Result<()> {
    sots(&rt)?;
    ppts(&rt)?;
    ppms(&rt)?;
    skips(&rt)
}
