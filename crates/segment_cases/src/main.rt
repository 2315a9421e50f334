//! COD and QCD of real and made headers, each limit and one past it, and segments cut at every byte: each answer on a line.
//! The headers were written by OpenJPEG 2.5.0 and Grok 10.0.5.
#![tactic(auto)]

use coding::coc::coc_marker;
use coding::cod::cod_marker;
use coding::parameters::CodingStyleDefault;
use layouts::header::HeaderKind;
use quantization::info::QuantizationInfo;
use quantization::markers::{qcc_marker, qcd_marker};
use reader::reader::BitReader;
use std::io;

// As these cases print a COD, and below the step sizes.
fn show_style(rt: &HostRuntime, cod: &CodingStyleDefault) -> io::Result<()> {
    let flags = cod.component.flags.raw;
    print!(rt;
        "flags {flags}, {:?}, layers {}, mct {}, ",
        cod.progression, cod.layers, cod.mct
    )?;
    let parameters = cod.component.parameters;
    print!(rt;
        "levels {}, blocks {} {}, ",
        parameters.levels, parameters.width, parameters.height
    )?;
    print!(rt; "{:?}, precincts", parameters.transformation)?;
    for size in &parameters.precincts[..=usize::from(parameters.levels)] {
        print!(rt; " {} {}", size.width, size.height)?;
    }
    println!(rt; "")
}

fn cod(rt: &HostRuntime, label: &str, bytes: &[u8]) -> io::Result<()> {
    print!(rt; "COD {label}: ")?;
    let mut reader = BitReader::new(bytes, 0);
    match cod_marker(&mut reader) {
        Ok(cod) => show_style(rt, &cod),
        Err(fault) => println!(rt; "{}", fault.cause),
    }
}

fn coc(
    rt: &HostRuntime,
    label: &str,
    bytes: &[u8],
    header: HeaderKind,
    csiz: u16,
) -> io::Result<()> {
    print!(rt; "COC {label}: ")?;
    let mut reader = BitReader::new(bytes, 0);
    match coc_marker(&mut reader, header, csiz) {
        Ok((index, coc)) => {
            let levels = coc.parameters.levels;
            println!(rt;
                "component {index}, levels {levels}, ends at {}",
                reader.offset()
            )
        }
        Err(fault) => println!(rt; "{}", fault.cause),
    }
}

fn show_steps(rt: &HostRuntime, info: &QuantizationInfo, end: usize) -> io::Result<()> {
    print!(rt;
        "{:?}, guard bits {}, {} step sizes",
        info.style, info.guard, info.count
    )?;
    for step in (0..info.count).filter_map(|k| info.step(k)) {
        print!(rt; " {}:{}", step.exponent, step.mantissa)?;
    }
    println!(rt; ", ends at {end}")
}

fn qcd(rt: &HostRuntime, label: &str, bytes: &[u8]) -> io::Result<()> {
    print!(rt; "QCD {label}: ")?;
    let mut reader = BitReader::new(bytes, 0);
    match qcd_marker(&mut reader) {
        Ok(info) => show_steps(rt, &info, reader.offset()),
        Err(fault) => println!(rt; "{}", fault.cause),
    }
}

fn qcc(
    rt: &HostRuntime,
    label: &str,
    bytes: &[u8],
    header: HeaderKind,
    csiz: u16,
) -> io::Result<()> {
    print!(rt; "QCC {label}: ")?;
    let mut reader = BitReader::new(bytes, 0);
    match qcc_marker(&mut reader, header, csiz) {
        Ok((index, info)) => {
            print!(rt; "component {index}, ")?;
            show_steps(rt, &info, reader.offset())
        }
        Err(fault) => println!(rt; "{}", fault.cause),
    }
}

fn real_cods(rt: &HostRuntime) -> io::Result<()> {
    cod(
        rt,
        "of the sample",
        &[0, 0x0C, 0, 0, 0, 1, 0, 1, 0, 0, 0, 1],
    )?;
    cod(
        rt,
        "of OpenJPEG with precincts",
        &[0, 0x0F, 1, 0, 0, 1, 1, 2, 2, 2, 0, 1, 0x44, 0x55, 0x66],
    )?;
    cod(
        rt,
        "of OpenJPEG, irreversible",
        &[0, 0x0C, 6, 2, 0, 2, 1, 3, 4, 4, 0, 0],
    )?;
    cod(
        rt,
        "of OpenJPEG, one level",
        &[0, 0x0C, 0, 0, 0, 1, 0, 1, 4, 4, 0, 1],
    )?;
    cod(rt, "of Grok", &[0, 0x0C, 0, 0, 0, 1, 1, 2, 3, 3, 0, 0])
}

fn cod_limits(rt: &HostRuntime) -> io::Result<()> {
    cod(
        rt,
        "progression 4",
        &[0, 0x0C, 0, 4, 0, 1, 0, 1, 0, 0, 0, 1],
    )?;
    cod(
        rt,
        "progression 5",
        &[0, 0x0C, 0, 5, 0, 1, 0, 1, 0, 0, 0, 1],
    )?;
    cod(rt, "layers 0", &[0, 0x0C, 0, 0, 0, 0, 0, 1, 0, 0, 0, 1])?;
    cod(rt, "layers 32", &[0, 0x0C, 0, 0, 0, 0x20, 0, 1, 0, 0, 0, 1])?;
    cod(rt, "layers 33", &[0, 0x0C, 0, 0, 0, 0x21, 0, 1, 0, 0, 0, 1])?;
    cod(
        rt,
        "transform of components 2",
        &[0, 0x0C, 0, 0, 0, 1, 2, 1, 0, 0, 0, 1],
    )?;
    cod(rt, "levels 32", &[0, 0x0C, 0, 0, 0, 1, 0, 0x20, 0, 0, 0, 1])?;
    cod(rt, "levels 33", &[0, 0x0C, 0, 0, 0, 1, 0, 0x21, 0, 0, 0, 1])?;
    cod(rt, "width 8", &[0, 0x0C, 0, 0, 0, 1, 0, 1, 8, 0, 0, 1])
}

fn more_cod_limits(rt: &HostRuntime) -> io::Result<()> {
    cod(rt, "width 9", &[0, 0x0C, 0, 0, 0, 1, 0, 1, 9, 0, 0, 1])?;
    cod(rt, "height 8", &[0, 0x0C, 0, 0, 0, 1, 0, 1, 0, 8, 0, 1])?;
    cod(rt, "height 9", &[0, 0x0C, 0, 0, 0, 1, 0, 1, 0, 9, 0, 1])?;
    cod(
        rt,
        "width 4, height 4",
        &[0, 0x0C, 0, 0, 0, 1, 0, 1, 4, 4, 0, 1],
    )?;
    cod(
        rt,
        "width 4, height 5",
        &[0, 0x0C, 0, 0, 0, 1, 0, 1, 4, 5, 0, 1],
    )?;
    cod(rt, "style 255", &[0, 0x0C, 0, 0, 0, 1, 0, 1, 0, 0, 0xFF, 1])?;
    cod(
        rt,
        "transformation 2",
        &[0, 0x0C, 0, 0, 0, 1, 0, 1, 0, 0, 0, 2],
    )?;
    cod(rt, "length 0", &[0, 0, 0, 0, 0, 1, 0, 1, 0, 0, 0, 1])
}

fn cocs(rt: &HostRuntime) -> io::Result<()> {
    coc(
        rt,
        "of component 1",
        &[0, 9, 1, 1, 1, 4, 4, 0, 1, 0x77, 0x88],
        HeaderKind::Main,
        3,
    )?;
    coc(
        rt,
        "of component 2 of 2",
        &[0, 9, 2, 1, 1, 4, 4, 0, 1, 0x77, 0x88],
        HeaderKind::Main,
        2,
    )?;
    coc(
        rt,
        "of component 2 of 2, in a tile-part",
        &[0, 9, 2, 1, 1, 4, 4, 0, 1, 0x77, 0x88],
        HeaderKind::TilePart,
        2,
    )?;
    coc(
        rt,
        "of 256 components",
        &[0, 9, 1, 1, 1, 4, 4, 0, 1, 0x77, 0x88],
        HeaderKind::Main,
        256,
    )?;
    coc(
        rt,
        "of 257 components",
        &[0, 0x0A, 1, 0, 0, 1, 4, 4, 0, 1],
        HeaderKind::Main,
        257,
    )?;
    coc(
        rt,
        "of component 257 of 257",
        &[0, 0x0A, 1, 1, 0, 1, 4, 4, 0, 1],
        HeaderKind::Main,
        257,
    )
}

fn real_qcds(rt: &HostRuntime) -> io::Result<()> {
    qcd(rt, "of the sample", &[0, 7, 0x40, 0x40, 0x48, 0x48, 0x50])?;
    qcd(
        rt,
        "of OpenJPEG",
        &[0, 0x0A, 0x40, 0x40, 0x48, 0x48, 0x50, 0x48, 0x48, 0x50],
    )?;
    qcd(
        rt,
        "of OpenJPEG, irreversible",
        &[
            0, 0x17, 0x42, 0x67, 0x38, 0x67, 0x50, 0x67, 0x50, 0x67, 0x68, 0x50, 5, 0x50, 5, 0x50,
            0x47, 0x57, 0xD3, 0x57, 0xD3, 0x57, 0x62,
        ],
    )?;
    qcd(
        rt,
        "of Grok",
        &[
            0, 0x11, 0x42, 0x5F, 0x52, 0x50, 5, 0x50, 5, 0x50, 0x47, 0x57, 0xD3, 0x57, 0xD3, 0x57,
            0x62,
        ],
    )
}

fn qcd_limits(rt: &HostRuntime) -> io::Result<()> {
    qcd(rt, "length 2", &[0, 2, 0x40, 0x40])?;
    qcd(rt, "length 3", &[0, 3, 0x40, 0x40])?;
    qcd(rt, "style 2", &[0, 5, 2, 0x12, 0x34])?;
    qcd(rt, "style 3", &[0, 5, 3, 0x12, 0x34])?;
    qcd(rt, "derived, length 3", &[0, 3, 0x21, 0x18, 5])?;
    qcd(
        rt,
        "derived, length 9",
        &[0, 9, 0x21, 0x18, 5, 0x11, 0x11, 0x22, 0x22],
    )?;
    qcd(rt, "expounded, an odd byte", &[0, 6, 0x42, 8, 1, 0x77])
}

fn qccs(rt: &HostRuntime) -> io::Result<()> {
    qcc(
        rt,
        "of component 1",
        &[0, 6, 1, 0x40, 0x40, 0x48],
        HeaderKind::Main,
        2,
    )?;
    qcc(
        rt,
        "length 3",
        &[0, 3, 1, 0x40, 0x40, 0x48],
        HeaderKind::Main,
        2,
    )?;
    qcc(
        rt,
        "length 4",
        &[0, 4, 1, 0x40, 0x40, 0x48],
        HeaderKind::Main,
        2,
    )?;
    qcc(
        rt,
        "of component 2 of 2",
        &[0, 6, 2, 0x40, 0x40, 0x48],
        HeaderKind::Main,
        2,
    )?;
    qcc(
        rt,
        "of component 2 of 2, in a tile-part",
        &[0, 6, 2, 0x40, 0x40, 0x48],
        HeaderKind::TilePart,
        2,
    )?;
    qcc(
        rt,
        "of 257 components",
        &[0, 7, 1, 0, 0x40, 0x40, 0x48],
        HeaderKind::Main,
        257,
    )?;
    qcc(
        rt,
        "of 257 components, length 4",
        &[0, 4, 1, 0, 0x40, 0x40, 0x48],
        HeaderKind::Main,
        257,
    )?;
    qcc(
        rt,
        "of 257 components, length 5",
        &[0, 5, 1, 0, 0x40, 0x40, 0x48],
        HeaderKind::Main,
        257,
    )
}

// The answer to each number of first bytes.
fn cut<F: Fn(&HostRuntime, &[u8]) -> io::Result<()>>(
    rt: &HostRuntime,
    bytes: &[u8],
    show: F,
) -> io::Result<()>
    requires { F.IsAlwaysCallable show }
{
    for count in 0..=bytes.len() {
        print!(rt; "{count} bytes of ")?;
        show(rt, &bytes[..count])?;
    }
    Ok(())
}

fn cut_segments(rt: &HostRuntime) -> io::Result<()> {
    let bytes = [0, 0x0F, 1, 0, 0, 1, 1, 2, 2, 2, 0, 1, 0x44, 0x55, 0x66];
    cut(rt, &bytes, |rt, part| cod(rt, "with precincts", part))?;
    let bytes = [0, 9, 1, 1, 1, 4, 4, 0, 1, 0x77, 0x88];
    cut(rt, &bytes, |rt, part| {
        coc(rt, "with precincts", part, HeaderKind::Main, 3)
    })?;
    let bytes = [0, 9, 0x42, 8, 1, 0x10, 2, 0x18, 3];
    cut(rt, &bytes, |rt, part| qcd(rt, "expounded", part))?;
    let bytes = [0, 7, 1, 0, 0x40, 0x40, 0x48];
    cut(rt, &bytes, |rt, part| {
        qcc(rt, "of 257", part, HeaderKind::Main, 257)
    })
}

fn main(rt: HostRuntime) -> io::Result<()> {
    real_cods(&rt)?;
    cod_limits(&rt)?;
    more_cod_limits(&rt)?;
    cocs(&rt)?;
    real_qcds(&rt)?;
    qcd_limits(&rt)?;
    qccs(&rt)?;
    cut_segments(&rt)
}
