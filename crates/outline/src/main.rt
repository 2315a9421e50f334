//! Prints what a store would file of a picture: the image area, the tile grid, the components and the first tiles; or the fault that
//! stops it. The codestream comes on standard input.
#![tactic(auto)]

ghost use Rattle.std.specs.Prelude.{◌≤◌, length, IfOk};

use picture::outline::{ComponentOutline, Outline, read_outline};
use std::io;
use std::io::Read;

/// How many bytes of the codestream are read.
const LIMIT: usize = 32_768;

/// How many tiles are printed.
const TILES: u32 = 64;

// Each read asks for all that is left, and an interrupted one is an error: `io::copy` asks for 8,192 bytes at a time, by which the rest of a
// longer message is lost, and reads again.
fn read_input(rt: &HostRuntime, buffer: &mut [u8]) -> io::Result<usize>
    ensures { IfOk result (λ n. n ≤ length buffer.old) }
{
    let mut input = rt.stdin();
    let mut filled = 0;
    for _ in 0..LIMIT {
        if filled >= buffer.len() {
            break;
        }
        let count = input.read(&mut buffer[filled..])?;
        if count == 0 {
            break;
        }
        filled += count;
    }
    Ok(filled)
}

fn print_sizes(rt: &HostRuntime, outline: &Outline) -> io::Result<()> {
    let size = outline.size;
    println!(rt;
        "size,{},{},{},{}",
        size.xsiz, size.ysiz, size.xosiz, size.yosiz
    )?;
    let columns = outline.grid.num_x_tiles();
    let rows = outline.grid.num_y_tiles();
    println!(rt;
        "grid,{columns},{rows},{},{},{},{}",
        size.xtsiz, size.ytsiz, size.xtosiz, size.ytosiz
    )
}

fn print_components(rt: &HostRuntime, outline: &Outline, codestream: &[u8]) -> io::Result<()> {
    for index in 0..outline.size.csiz {
        if let Some(component) = outline.component(codestream, index) {
            let ComponentOutline { info, samples } = component;
            println!(rt;
                "comp,{index},{},{},{},{samples},{}",
                info.precision,
                info.xrsiz,
                info.yrsiz,
                samples.area()
            )?;
        }
    }
    Ok(())
}

fn print_tiles(rt: &HostRuntime, outline: &Outline) -> io::Result<()> {
    for index in 0..TILES {
        if let Some(tile) = outline.grid.tile(index) {
            println!(rt; "tile,{index},{tile}")?;
        }
    }
    let tiles = outline.grid.num_tiles();
    let area = outline.grid.image_area().area();
    println!(rt; "total,{tiles},{area}")
}

fn print_outline(rt: &HostRuntime, outline: &Outline, codestream: &[u8]) -> io::Result<()> {
    print_sizes(rt, outline)?;
    print_components(rt, outline, codestream)?;
    print_tiles(rt, outline)
}

fn main(rt: HostRuntime) -> io::Result<()> {
    // With a Vec the program would trust the C library's heap too.
    let mut buffer = [0; LIMIT];
    let count = read_input(&rt, &mut buffer)?;
    let codestream = &buffer[..count];
    match read_outline(codestream) {
        Ok(outline) => print_outline(&rt, &outline, codestream),
        Err(fault) => println!(rt; "fault,{fault}"),
    }
}
