//! SIZ at its limits and one past them, and cut at every byte: each answer on a line.
#![tactic(auto)]

use faults::decode::{DecodeError, MarkerError};
use faults::segment::Cause;
use picture::outline::read_outline;
use std::io;

/// SOC and a SIZ of one component: 17 by 11, the image from (3, 2), tiles of 8 by 6 from (1, 1).
const SAMPLE: [u8; 45] = [
    0xFF, 0x4F, 0xFF, 0x51, 0x00, 0x29, 0x00, 0x00, 0x00, 0x00, 0x00, 0x11, 0x00, 0x00, 0x00, 0x0B,
    0x00, 0x00, 0x00, 0x03, 0x00, 0x00, 0x00, 0x02, 0x00, 0x00, 0x00, 0x08, 0x00, 0x00, 0x00, 0x06,
    0x00, 0x00, 0x00, 0x01, 0x00, 0x00, 0x00, 0x01, 0x00, 0x01, 0x07, 0x01, 0x01,
];

/// The sample with other bytes from `place` on.
fn patched(sample: &[u8; 45], place: usize, bytes: &[u8]) -> [u8; 45] {
    let mut codestream = *sample;
    for (slot, byte) in codestream.iter_mut().skip(place).zip(bytes) {
        *slot = *byte;
    }
    codestream
}

// As these cases print a fault: its kind behind it.
fn show_fault(rt: &HostRuntime, fault: &DecodeError) -> io::Result<()> {
    match fault {
        DecodeError::Marker(
            MarkerError::ParseFailure {
                cause: Cause::Short(_),
                ..
            },
        ) => println!(rt; "{fault},short"),
        DecodeError::Marker(
            MarkerError::ParseFailure {
                cause: Cause::Value(_),
                ..
            },
        ) => println!(rt; "{fault},value"),
        _ => println!(rt; "{fault}"),
    }
}

fn show(rt: &HostRuntime, label: &str, codestream: &[u8]) -> io::Result<()> {
    print!(rt; "{label}: ")?;
    match read_outline(codestream) {
        Ok(_) => println!(rt; "accepted"),
        Err(fault) => show_fault(rt, &fault),
    }
}

fn markers_and_fields(rt: &HostRuntime) -> io::Result<()> {
    show(rt, "the sample", &SAMPLE)?;
    show(rt, "no SOC", &patched(&SAMPLE, 1, &[80]))?;
    show(rt, "no marker behind SOC", &patched(&SAMPLE, 2, &[0]))?;
    show(rt, "COD in the place of SIZ", &patched(&SAMPLE, 3, &[82]))?;
    show(rt, "Lsiz 0", &patched(&SAMPLE, 4, &[0, 0]))?;
    show(
        rt,
        "XOsiz equal to Xsiz",
        &patched(&SAMPLE, 16, &[0, 0, 0, 17]),
    )?;
    show(
        rt,
        "XOsiz one below Xsiz, tiles of 16",
        &patched(&SAMPLE, 16, &[0, 0, 0, 16, 0, 0, 0, 2, 0, 0, 0, 16]),
    )?;
    show(
        rt,
        "YOsiz equal to Ysiz",
        &patched(&SAMPLE, 20, &[0, 0, 0, 11]),
    )?;
    show(rt, "Csiz 0", &patched(&SAMPLE, 40, &[0, 0]))
}

fn more_fields(rt: &HostRuntime) -> io::Result<()> {
    show(rt, "Csiz 2", &patched(&SAMPLE, 40, &[0, 2]))?;
    show(rt, "Ssiz 30", &patched(&SAMPLE, 42, &[30]))?;
    show(rt, "Ssiz 31", &patched(&SAMPLE, 42, &[31]))?;
    show(rt, "Ssiz 128 + 30", &patched(&SAMPLE, 42, &[158]))?;
    show(rt, "Ssiz 255", &patched(&SAMPLE, 42, &[255]))?;
    show(rt, "XTsiz 0", &patched(&SAMPLE, 24, &[0, 0, 0, 0]))?;
    show(rt, "YTsiz 0", &patched(&SAMPLE, 28, &[0, 0, 0, 0]))?;
    show(
        rt,
        "XTOsiz equal to Xsiz",
        &patched(&SAMPLE, 32, &[0, 0, 0, 17]),
    )?;
    show(
        rt,
        "YTOsiz equal to Ysiz",
        &patched(&SAMPLE, 36, &[0, 0, 0, 11]),
    )
}

fn sides_and_offsets(rt: &HostRuntime) -> io::Result<()> {
    show(
        rt,
        "XTOsiz above XOsiz",
        &patched(&SAMPLE, 32, &[0, 0, 0, 4]),
    )?;
    show(
        rt,
        "XTOsiz equal to XOsiz",
        &patched(&SAMPLE, 32, &[0, 0, 0, 3]),
    )?;
    show(
        rt,
        "YTOsiz above YOsiz",
        &patched(&SAMPLE, 36, &[0, 0, 0, 3]),
    )?;
    show(rt, "XTsiz 2", &patched(&SAMPLE, 24, &[0, 0, 0, 2]))?;
    show(rt, "XTsiz 3", &patched(&SAMPLE, 24, &[0, 0, 0, 3]))?;
    show(rt, "YTsiz 1", &patched(&SAMPLE, 28, &[0, 0, 0, 1]))?;
    show(rt, "YTsiz 2", &patched(&SAMPLE, 28, &[0, 0, 0, 2]))?;
    show(
        rt,
        "XTsiz 2^32 - 1",
        &patched(&SAMPLE, 24, &[255, 255, 255, 255]),
    )?;
    show(
        rt,
        "XTsiz 2^32 - 2",
        &patched(&SAMPLE, 24, &[255, 255, 255, 254]),
    )
}

fn components_and_numbers(rt: &HostRuntime) -> io::Result<()> {
    show(rt, "XRsiz 0", &patched(&SAMPLE, 43, &[0]))?;
    show(rt, "YRsiz 0", &patched(&SAMPLE, 44, &[0]))?;
    show(
        rt,
        "XRsiz and YRsiz 255",
        &patched(&SAMPLE, 43, &[255, 255]),
    )?;
    show(
        rt,
        "XTsiz 0 and XRsiz 0",
        &patched(
            &SAMPLE,
            24,
            &[0, 0, 0, 0, 0, 0, 0, 6, 0, 0, 0, 1, 0, 0, 0, 1, 0, 1, 7, 0],
        ),
    )?;
    show(
        rt,
        "XTsiz 2 and XRsiz 0",
        &patched(
            &SAMPLE,
            24,
            &[0, 0, 0, 2, 0, 0, 0, 6, 0, 0, 0, 1, 0, 0, 0, 1, 0, 1, 7, 0],
        ),
    )?;
    show(
        rt,
        "65,536 by 65,536 tiles",
        &patched(
            &SAMPLE,
            8,
            &[
                0, 1, 0, 0, 0, 1, 0, 0, 0, 0, 0, 0, 0, 0, 0, 0, 0, 0, 0, 1, 0, 0, 0, 1, 0, 0, 0, 0,
                0, 0, 0, 0,
            ],
        ),
    )?;
    show(
        rt,
        "65,535 by 65,536 tiles",
        &patched(
            &SAMPLE,
            8,
            &[
                0, 0, 255, 255, 0, 1, 0, 0, 0, 0, 0, 0, 0, 0, 0, 0, 0, 0, 0, 1, 0, 0, 0, 1, 0, 0,
                0, 0, 0, 0, 0, 0,
            ],
        ),
    )?;
    show(
        rt,
        "65,536 by 65,536 tiles and XRsiz 0",
        &patched(
            &SAMPLE,
            8,
            &[
                0, 1, 0, 0, 0, 1, 0, 0, 0, 0, 0, 0, 0, 0, 0, 0, 0, 0, 0, 1, 0, 0, 0, 1, 0, 0, 0, 0,
                0, 0, 0, 0, 0, 1, 7, 0,
            ],
        ),
    )
}

fn cut(rt: &HostRuntime) -> io::Result<()> {
    for count in 0..=SAMPLE.len() {
        print!(rt; "first {count} bytes")?;
        show(rt, "", &SAMPLE[..count])?;
    }
    Ok(())
}

fn main(rt: HostRuntime) -> io::Result<()> {
    markers_and_fields(&rt)?;
    more_fields(&rt)?;
    sides_and_offsets(&rt)?;
    components_and_numbers(&rt)?;
    cut(&rt)
}
