ghost use Rattle.layouts.specs.Layouts.{Answers};
ghost use Rattle.packed.specs.Ppm.{Hands, MadeCount, MadePacket, MadePpm, StepsEnough, StepsEnoughLeft, packet_layout, packets_left, ppm_reading, rest_layout};
ghost use Rattle.packed.specs.Segment.{ParsesInside};
ghost use Rattle.reader.specs.Reads.{SameData, bytes_of};
ghost use Rattle.std.specs.Iterator.{item_count};

use crate::segment::{SegmentReader, take_segment};
use faults::segment::SegmentFault;
use layouts::markers::PPM;
use reader::reader::BitReader;

/// A packet of a PPM segment: its bytes, which stand at `place`.
#[derive(Clone, Copy)]
pub struct PpmPacket<'a> {
    pub place: usize,
    pub data: &'a [u8],
}

/// Packed packet headers of the main header: the index of the segment, the number of its packets, and a reader that hands them out.
#[derive(Clone, Copy)]
pub struct PpmMarkerData<'a> {
    pub zppm: u8,
    pub count: usize,
    pub packets: SegmentReader<'a>,
}

fn packet<'a>(inside: &mut SegmentReader<'a>) -> Result<PpmPacket<'a>, SegmentFault<PPM>>
    ensures { ParsesInside packet_layout (MadePacket inside.old) inside.old inside.new result }
{
    let length = inside.read_u32()?;
    let place = inside.offset();
    let data = inside.read_bytes(length as usize)?;
    Ok(PpmPacket { place, data })
}

// Reads packets up to the segment's end. A `for` would not give the cause where one is cut.
fn count_packets(inside: &mut SegmentReader<'_>) -> Result<usize, SegmentFault<PPM>>
    ensures { ParsesInside (rest_layout inside.old) MadeCount inside.old inside.new result }
{
    let mut count = 0;
    while !inside.at_end() {
        packet(inside)?;
        count += 1;
    }
    Ok(count)
}

/// Reads the PPM segment whose marker stands before the reader: first as a whole, then inside its bounds. It is accepted only with all its
/// packets.
pub fn ppm_marker<'a>(reader: &mut BitReader<'a>) -> Result<PpmMarkerData<'a>, SegmentFault<PPM>>
    ensures answers { Answers (ppm_reading (bytes_of reader.old) reader.old.place) (MadePpm reader.old) reader.new result }
    ensures same { SameData reader.old reader.new }
{
    let mut inside = take_segment::<PPM>(reader)?;
    let zppm = inside.read_byte()?;
    let packets = inside;
    let count = count_packets(&mut inside)?;
    Ok(PpmMarkerData {
        zppm,
        count,
        packets,
    })
}

impl<'a> SegmentReader<'a> {
    /// The next packet of a PPM segment, or None where no whole one is left.
    pub fn next_packet(&mut self) -> Option<PpmPacket<'a>>
        ensures { Hands self.old self.new result }
    {
        let mut rest = *self;
        let packet = packet(&mut rest).ok()?;
        *self = rest;
        Some(packet)
    }
}

/// The packets of a PPM segment that are left.
impl<'a> Iterator for SegmentReader<'a> {
    type Item = PpmPacket<'a>;

    ghost next_gives = { λ b r a. Hands b a r };

    ghost remaining = { item_count packets_left };

    fn next(&mut self) -> Option<PpmPacket<'a>> {
        self.next_packet()
    }
}

/// A segment has no more packets than bytes: that a reading stops after as many changes nothing.
pub fn steps_enough()
    ensures reading { StepsEnough }
    ensures left { StepsEnoughLeft }
{}
