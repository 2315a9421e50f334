ghost use Rattle.layouts.specs.Layouts.{Parses};
ghost use Rattle.packed.specs.Segment.{AdvancesInside, HasRoom, MadeSegment, cut, segment_layout};
ghost use Rattle.reader.specs.Bytes.{IsByte, IsLong, IsPartOf};
ghost use Rattle.reader.specs.Reads.{bytes_of};
ghost use Rattle.std.specs.Prelude.{◌≡◌, length, nat_le};

use faults::segment::{ReadFault, SegmentFault};
use reader::reader::BitReader;

/// A place in the codestream inside a segment: nothing is read behind the segment's end.
#[derive(Clone, Copy)]
pub struct SegmentReader<'a> {
    reader: BitReader<'a>,
    end: usize,
}

impl<'a> SegmentReader<'a> {
    /// The place where it stands, counted from the codestream's start.
    pub(crate) fn offset(&self) -> usize
        ensures { result ≡ self.now.reader.place }
    {
        self.reader.offset()
    }

    /// Whether no byte of the segment is left.
    pub(crate) fn at_end(&self) -> bool
        ensures { result ≡ nat_le (length (bytes_of (cut self.now))) self.now.reader.place }
    {
        self.reader.offset() >= self.end || self.reader.at_end()
    }

    // Whether `len` bytes more end inside the segment.
    fn room(&self, len: usize) -> Result<(), ReadFault>
        ensures { HasRoom len self.now result }
    {
        let place = self.reader.offset();
        // By `checked_sub`, packets are gone through in half as much time again.
        if place > self.end || self.end - place < len {
            return Err(ReadFault { place });
        }
        Ok(())
    }

    /// The next byte.
    pub(crate) fn read_byte(&mut self) -> Result<u8, ReadFault>
        ensures { AdvancesInside 1 IsByte self.old self.new result }
    {
        self.room(1)?;
        self.reader.read_byte()
    }

    /// The number in the next four bytes.
    pub(crate) fn read_u32(&mut self) -> Result<u32, ReadFault>
        ensures { AdvancesInside 4 IsLong self.old self.new result }
    {
        self.room(4)?;
        self.reader.read_u32()
    }

    /// The next `len` bytes, as a part of the codestream.
    pub(crate) fn read_bytes(&mut self, len: usize) -> Result<&'a [u8], ReadFault>
        ensures { AdvancesInside len (IsPartOf len) self.old self.new result }
    {
        self.room(len)?;
        self.reader.read_bytes(len)
    }
}

/// Takes a segment as a whole by its length, and gives a reader of the bytes behind the length.
pub(crate) fn take_segment<'a, const CODE: u8>(
    reader: &mut BitReader<'a>,
) -> Result<SegmentReader<'a>, SegmentFault<CODE>>
    ensures { Parses segment_layout (MadeSegment reader.old) reader.old reader.new result }
{
    let at = reader.offset();
    let length = reader.read_u16()?;
    if length < 2 {
        return Err(SegmentFault::value(at));
    }
    let inside = *reader;
    reader.skip_bytes(usize::from(length) - 2)?;
    Ok(SegmentReader {
        reader: inside,
        end: reader.offset(),
    })
}
