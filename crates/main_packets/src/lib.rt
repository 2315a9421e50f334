//! The packets of a main header's PPM segments, in the order of Zppm.
#![tactic(auto)]

ghost use Rattle.main_packets.specs.Packets.{PacketAt, rows_of};
ghost use Rattle.main_packets.specs.Steps.{InHeader, InSegment, Nth};
ghost use Rattle.packed.specs.Ppm.{packets_left};
ghost use Rattle.std.specs.Prelude.{◌≡◌, length};

use headers::found::{Found, Segment};
use headers::main_header::{MainHeader, next_main};
use packed::ppm::{PpmMarkerData, ppm_marker};
use reader::reader::BitReader;
use settings::rows::PackedRow;
use std::ops::ControlFlow;

// Packet `n` of a segment; or by how much `n` passes their number, which the segment has: `count` would go through them again.
fn nth_packet(segment: PpmMarkerData<'_>, n: usize) -> ControlFlow<PackedRow, usize>
    requires { segment.count ≡ length (packets_left segment.packets) }
    ensures { Nth (rows_of segment.entry.zppm (packets_left segment.entry.packets)) n result }
{
    let mut packets = segment.packets;
    match packets.nth(n) {
        Some(packet) => ControlFlow::Break(PackedRow {
            index: segment.zppm,
            place: packet.place,
            len: packet.data.len(),
        }),
        None => ControlFlow::Continue(n - segment.count),
    }
}

// The same of the PPM segment that stands at `place`, behind its marker, where its index is `zppm`; elsewhere it has none.
fn nth_in_segment(
    codestream: &[u8],
    place: usize,
    zppm: u8,
    n: usize,
) -> ControlFlow<PackedRow, usize>
    ensures { InSegment codestream.now place zppm n result }
{
    let mut reader = BitReader::new(codestream, place);
    match ppm_marker(&mut reader) {
        Ok(segment) if segment.zppm == zppm => nth_packet(segment, n),
        _ => ControlFlow::Continue(n),
    }
}

// The same of all PPM segments of the main header whose index is `zppm`.
fn nth_with_index(header: MainHeader<'_>, zppm: u8, n: usize) -> ControlFlow<PackedRow, usize>
    ensures { InHeader header.entry.codestream.now header.entry.csiz header.entry.segments zppm n result }
{
    let mut reader = header.reader();
    let mut left = n;
    loop {
        let place = reader.offset();
        let Ok(found) = next_main(&mut reader, header.csiz) else {
            return ControlFlow::Continue(left);
        };
        let Found::Stands(segment) = found else {
            return ControlFlow::Continue(left);
        };
        if let Segment::Ppm(_) = segment {
            left = nth_in_segment(header.codestream, place + 2, zppm, left)?;
        }
    }
}

/// Packet `k`, from 0, of all packets of the main header's PPM segments: in the order of Zppm, and those of one Zppm in the order in which they
/// stand. None where there are not more than `k`.
pub fn packet(header: MainHeader<'_>, k: usize) -> Option<PackedRow>
    ensures { PacketAt header.entry.codestream.now header.entry.csiz header.entry.segments k result }
{
    let mut left = k;
    for zppm in 0..=u8::MAX {
        match nth_with_index(header, zppm, left) {
            ControlFlow::Break(row) => return Some(row),
            ControlFlow::Continue(rest) => left = rest,
        }
    }
    None
}
