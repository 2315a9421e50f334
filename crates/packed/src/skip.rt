ghost use Rattle.layouts.specs.Layouts.{Parses, here};
ghost use Rattle.packed.specs.Segment.{place_after, segment_layout};
ghost use Rattle.reader.specs.Reads.{SameData};
ghost use Rattle.std.specs.Prelude.{◌≡◌};

use crate::segment::take_segment;
use faults::segment::SegmentFault;
use layouts::markers::CRG;
use reader::reader::BitReader;

/// Skips a segment by its length: RGN (A.6.3), TLM (A.7.1), PLT (A.7.3) or COM (A.9.2).
pub fn skip_marker_segment<const CODE: u8>(
    reader: &mut BitReader<'_>,
) -> Result<(), SegmentFault<CODE>>
    ensures { Parses segment_layout (λ _ _. Unit {0}) reader.old reader.new result }
{
    take_segment::<CODE>(reader)?;
    Ok(())
}

/// Skips a CRG segment (A.9.1), and refuses none. Where its length is cut the reader stays; where its length is below 2 or its body is cut it
/// stands behind the length.
pub fn skip_loosely(reader: &mut BitReader<'_>)
    ensures at { reader.new.place ≡ place_after (here segment_layout reader.old) }
    ensures same { SameData reader.old reader.new }
{
    let _ = take_segment::<CRG>(reader);
}
