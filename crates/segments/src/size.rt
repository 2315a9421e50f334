ghost use Rattle.std.specs.Prelude.{◌≡◌, ◌<◌};
ghost use Rattle.reader.specs.Reads.{SameData};
ghost use Rattle.rect.specs.Spans.{reaching};
ghost use Rattle.segments.specs.Siz.{Hands, ReadsSize, Says, Weighs, x_axis, y_axis, grid_in, misdimensioned, misplaced, tiles_of};

use crate::fields::{MAX_PRECISION, SizeFields, size_fields};
use crate::size_data::{Axis, ComponentSizeInfo, SizeData};
use faults::decode::{DecodeError, MarkerError, TileError, ValidationError};
use layouts::markers::SIZ;
use reader::reader::BitReader;

impl Axis {
    // Whether the tile side is 0, or the tile offset not below the grid's side.
    fn is_misdimensioned(&self) -> bool
        ensures { result ≡ misdimensioned self.now.size self.now.side self.now.origin }
    {
        self.side == 0 || self.origin >= self.size
    }

    // Whether the first tile does not hold the image's first point, or ends at 2^32 or behind it.
    fn is_misplaced(&self) -> bool
        ensures { result ≡ misplaced self.now.offset self.now.side self.now.origin }
    {
        let end = u64::from(self.origin) + u64::from(self.side);
        self.origin > self.offset || end >= 1 << 32 || end <= u64::from(self.offset)
    }

    // How many tiles there are.
    fn num_tiles(&self) -> u32
        requires { 0 < self.now.side }
        ensures { result ≡ reaching self.now.origin self.now.side self.now.size }
    {
        self.size.saturating_sub(self.origin).div_ceil(self.side)
    }
}

fn accept(fields: SizeFields, place: usize) -> Result<SizeData, DecodeError>
    ensures { Weighs place fields result }
{
    let x = fields.x();
    let y = fields.y();
    if x.is_misdimensioned() || y.is_misdimensioned() {
        return Err(ValidationError::InvalidDimensions { place }.into());
    }
    if x.is_misplaced() || y.is_misplaced() {
        return Err(TileError::InvalidOffsets { place }.into());
    }
    if !fields.sampled {
        return Err(ValidationError::InvalidComponentMetadata { place }.into());
    }
    if u64::from(x.num_tiles()) * u64::from(y.num_tiles()) >= 1 << 32 {
        return Err(ValidationError::ImageTooLarge { place }.into());
    }
    let SizeFields { image, tiles, .. } = fields;
    Ok(SizeData {
        xsiz: image.xsiz,
        ysiz: image.ysiz,
        xosiz: image.xosiz,
        yosiz: image.yosiz,
        xtsiz: tiles.xtsiz,
        ytsiz: tiles.ytsiz,
        xtosiz: tiles.xtosiz,
        ytosiz: tiles.ytosiz,
        csiz: tiles.csiz,
        components: fields.components,
    })
}

/// Reads the SIZ marker where the reader stands, and its segment.
pub fn size_marker(reader: &mut BitReader<'_>) -> Result<SizeData, DecodeError>
    ensures reads { ReadsSize reader.old reader.new result }
    ensures same { SameData reader.old reader.new }
{
    let place = reader.offset();
    if reader.read_marker()? != SIZ {
        return Err(MarkerError::Expected { code: SIZ, place }.into());
    }
    let fields = size_fields(reader)?;
    accept(fields, place)
}

fn component_info(ssiz: u8, xrsiz: u8, yrsiz: u8) -> Option<ComponentSizeInfo>
    ensures { Says ssiz xrsiz yrsiz result }
{
    let precision = ssiz % 128 + 1;
    if precision > MAX_PRECISION || xrsiz == 0 || yrsiz == 0 {
        return None;
    }
    Some(ComponentSizeInfo {
        precision,
        xrsiz,
        yrsiz,
    })
}

impl SizeData {
    fn x(&self) -> Axis
        ensures { result ≡ x_axis (grid_in self.now) }
    {
        Axis {
            size: self.xsiz,
            offset: self.xosiz,
            side: self.xtsiz,
            origin: self.xtosiz,
        }
    }

    fn y(&self) -> Axis
        ensures { result ≡ y_axis (grid_in self.now) }
    {
        Axis {
            size: self.ysiz,
            offset: self.yosiz,
            side: self.ytsiz,
            origin: self.ytosiz,
        }
    }

    /// The number of tiles.
    pub fn num_tiles(&self) -> u32
        ensures { result ≡ tiles_of (grid_in self.now) }
    {
        self.x().num_tiles() * self.y().num_tiles()
    }

    /// Component `index`, from the codestream that these sizes were read from.
    pub fn component(&self, codestream: &[u8], index: u16) -> Option<ComponentSizeInfo>
        ensures { Hands codestream.now self.now index result }
    {
        if index >= self.csiz {
            return None;
        }
        let place = self.components.checked_add(3 * usize::from(index))?;
        match codestream.get(place..)? {
            [ssiz, xrsiz, yrsiz, ..] => component_info(*ssiz, *xrsiz, *yrsiz),
            _ => None,
        }
    }
}
