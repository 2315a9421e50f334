//! Resolutions, sub-bands, precincts and code-blocks at the corners of their ranges: each answer on a line.
#![tactic(auto)]

use bands::decomposition::Decomposition;
use bands::resolution::Resolution;
use bands::sub_band::SubBandType;
use blocks::cells::CodeBlocks;
use blocks::grid::BlockGrid;
use faults::decode::DecodeError;
use precincts::grid::PrecinctGrid;
use rect::IntRect;
use std::io;

/// A tile's edges on the reference grid; XRsiz and YRsiz; N_L and r; PPx and PPy; xcb and ycb.
#[derive(Clone, Copy)]
struct Case {
    tile: IntRect,
    xrsiz: u8,
    yrsiz: u8,
    levels: u8,
    r: u8,
    ppx: u8,
    ppy: u8,
    xcb: u8,
    ycb: u8,
}

// One row of the table below.
fn row(
    (x0, y0, x1, y1): (u32, u32, u32, u32),
    (xrsiz, yrsiz): (u8, u8),
    (levels, r): (u8, u8),
    (ppx, ppy): (u8, u8),
    (xcb, ycb): (u8, u8),
) -> Case {
    Case {
        tile: IntRect { x0, y0, x1, y1 },
        xrsiz,
        yrsiz,
        levels,
        r,
        ppx,
        ppy,
        xcb,
        ycb,
    }
}

fn cases() -> [Case; 23] {
    [
        row((3, 2, 9, 7), (1, 1), (1, 1), (3, 3), (2, 2)),
        row((9, 2, 17, 7), (1, 1), (2, 0), (15, 15), (2, 2)),
        row((9, 2, 17, 7), (1, 1), (2, 1), (15, 15), (2, 2)),
        row((5, 0, 6, 9), (1, 1), (2, 1), (0, 0), (2, 2)),
        row((3, 2, 9, 7), (1, 1), (1, 1), (0, 3), (2, 2)),
        row((3, 2, 9, 7), (1, 1), (1, 0), (0, 0), (2, 2)),
        row((0, 0, u32::MAX, 5), (1, 1), (16, 0), (15, 15), (10, 2)),
        row((0, 0, u32::MAX, 5), (1, 1), (17, 0), (15, 0), (10, 2)),
        row((0, 0, u32::MAX, 5), (2, 1), (16, 0), (15, 15), (10, 2)),
        row(
            (4294967290, 4294967280, u32::MAX, u32::MAX),
            (1, 1),
            (32, 32),
            (15, 15),
            (6, 6),
        ),
        row((0, 0, u32::MAX, u32::MAX), (1, 1), (32, 0), (0, 0), (6, 6)),
        row(
            (1, 1, u32::MAX, u32::MAX),
            (1, 1),
            (32, 0),
            (15, 15),
            (6, 6),
        ),
        row(
            (4294967290, 0, u32::MAX, 5),
            (1, 1),
            (0, 0),
            (15, 15),
            (6, 6),
        ),
        row((1000, 7, 100000, 3000), (255, 254), (3, 2), (4, 5), (3, 2)),
        row((3, 2, 9, 7), (1, 1), (1, 2), (3, 3), (2, 2)),
        row((3, 2, 9, 7), (1, 1), (33, 2), (3, 3), (2, 2)),
        row((13, 2, 60, 40), (1, 1), (2, 0), (2, 2), (2, 3)),
        row((43, 5, 200, 90), (3, 1), (1, 0), (3, 2), (2, 2)),
        row(
            (4294900000, 10, 4294930000, 12),
            (1, 1),
            (0, 0),
            (15, 15),
            (10, 2),
        ),
        row((0, 0, 70000, 3), (1, 1), (0, 0), (0, 1), (4, 4)),
        row((3, 2, 9, 7), (0, 1), (1, 1), (3, 3), (2, 2)),
        row((3, 2, 9, 7), (1, 1), (1, 1), (3, 16), (2, 2)),
        row((9, 2, 3, 7), (1, 1), (1, 1), (3, 3), (2, 2)),
    ]
}

const BANDS: [SubBandType; 4] = [
    SubBandType::LowLow,
    SubBandType::HighLow,
    SubBandType::LowHigh,
    SubBandType::HighHigh,
];

fn show_rect(rt: &HostRuntime, label: &str, r: IntRect) -> io::Result<()> {
    println!(rt; "{label} {r} area {}", r.area())
}

// As these cases print a fault: its number alone.
fn show_fault(rt: &HostRuntime, label: &str, fault: &DecodeError) -> io::Result<()> {
    println!(rt; "{label} fault {}", fault.number())
}

fn show_precinct(rt: &HostRuntime, grid: &PrecinctGrid, k: u64) -> io::Result<()> {
    match grid.precinct(k) {
        Ok(p) => {
            print!(rt; "precinct {} at {},{} ", p.idx, p.r_x, p.r_y)?;
            show_rect(rt, "covers", p.rect)
        }
        Err(fault) => show_fault(rt, "precinct", &fault),
    }
}

fn show_block(rt: &HostRuntime, blocks: &CodeBlocks, k: u64) -> io::Result<()> {
    match blocks.code_block(k) {
        Some(b) => show_rect(rt, "block", b),
        None => println!(rt; "no block"),
    }
}

fn show_blocks(rt: &HostRuntime, grid: &BlockGrid, band: SubBandType, k: u64) -> io::Result<()> {
    match grid.code_blocks(band, k) {
        Ok(blocks) => {
            let number = blocks.num_code_blocks();
            println!(rt;
                "blocks {} x {} = {number}",
                blocks.num_columns(),
                blocks.num_rows()
            )?;
            show_block(rt, &blocks, 0)?;
            show_block(rt, &blocks, number / 2)?;
            show_block(rt, &blocks, number)
        }
        Err(fault) => show_fault(rt, "blocks", &fault),
    }
}

fn show_bands(rt: &HostRuntime, grid: &BlockGrid, last: u64) -> io::Result<()> {
    for band in BANDS {
        match grid.sub_band_rect(band) {
            Ok(r) => show_rect(rt, "band", r)?,
            Err(fault) => show_fault(rt, "band", &fault)?,
        }
        show_blocks(rt, grid, band, 0)?;
        show_blocks(rt, grid, band, last)?;
    }
    Ok(())
}

fn show_grid(rt: &HostRuntime, grid: &BlockGrid) -> io::Result<()> {
    let precincts = grid.precincts;
    println!(rt;
        "precincts {} x {}",
        precincts.num_precincts_x(),
        precincts.num_precincts_y()
    )?;
    let number = match precincts.num_precincts() {
        Ok(n) => n,
        Err(fault) => {
            show_fault(rt, "precincts", &fault)?;
            0
        }
    };
    println!(rt; "accepted {number}")?;
    show_precinct(rt, &precincts, 0)?;
    show_precinct(rt, &precincts, 1)?;
    let last = number.saturating_sub(1);
    show_precinct(rt, &precincts, last)?;
    show_precinct(rt, &precincts, number)?;
    println!(rt;
        "size {} x {}",
        grid.code_block_width(),
        grid.code_block_height()
    )?;
    show_bands(rt, grid, last)
}

fn show_resolution(rt: &HostRuntime, case: &Case, resolution: Resolution) -> io::Result<()> {
    let Some(precincts) = PrecinctGrid::new(
        case.tile, case.xrsiz, case.yrsiz, resolution, case.ppx, case.ppy,
    ) else {
        return println!(rt; "out of range");
    };
    let component_tile = precincts.component_tile();
    show_rect(rt, "component tile", component_tile)?;
    show_rect(rt, "resolution", resolution.rect(component_tile))?;
    println!(rt;
        "level {} bands {}",
        resolution.decomposition_level(),
        resolution.num_sub_bands()
    )?;
    show_grid(
        rt,
        &BlockGrid {
            precincts,
            xcb: case.xcb,
            ycb: case.ycb,
        },
    )
}

fn show(rt: &HostRuntime, case: &Case) -> io::Result<()> {
    let Some(levels) = Decomposition::new(case.levels) else {
        return println!(rt; "too many levels");
    };
    match levels.resolution(case.r) {
        Ok(resolution) => show_resolution(rt, case, resolution),
        Err(fault) => show_fault(rt, "resolution", &fault),
    }
}

fn main(rt: HostRuntime) -> io::Result<()> {
    for (number, case) in cases().iter().enumerate() {
        println!(rt; "case {number}")?;
        show(&rt, case)?;
    }
    Ok(())
}
