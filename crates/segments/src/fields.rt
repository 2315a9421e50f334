ghost use Rattle.layouts.specs.Layouts.{Parses, fields};
ghost use Rattle.segments.specs.Siz.{MadeComponent, MadeComponents, MadeImage, MadeSize, MadeTiles, component_table, components_layout, image_table, x_axis, y_axis, fields_grid, siz_layout, tile_table};
ghost use Rattle.std.specs.Prelude.{◌≡◌};

use crate::size_data::{Axis, ImageFields, TileFields};
use faults::segment::SegmentFault;
use layouts::markers::SIZ;
use reader::reader::BitReader;

/// The most bits that a sample may have.
pub(crate) const MAX_PRECISION: u8 = 31;

fn image_fields(reader: &mut BitReader<'_>) -> Result<ImageFields, SegmentFault<SIZ>>
    ensures { Parses (fields image_table) MadeImage reader.old reader.new result }
{
    let _lsiz = reader.read_u16()?;
    let _rsiz = reader.read_u16()?;
    let xsiz = reader.read_u32()?;
    let ysiz = reader.read_u32()?;
    let at = reader.offset();
    let xosiz = reader.read_u32()?;
    if xosiz >= xsiz {
        return Err(SegmentFault::value(at));
    }
    let at = reader.offset();
    let yosiz = reader.read_u32()?;
    if yosiz >= ysiz {
        return Err(SegmentFault::value(at));
    }
    Ok(ImageFields {
        xsiz,
        ysiz,
        xosiz,
        yosiz,
    })
}

fn tile_fields(reader: &mut BitReader<'_>) -> Result<TileFields, SegmentFault<SIZ>>
    ensures { Parses (fields tile_table) MadeTiles reader.old reader.new result }
{
    let xtsiz = reader.read_u32()?;
    let ytsiz = reader.read_u32()?;
    let xtosiz = reader.read_u32()?;
    let ytosiz = reader.read_u32()?;
    let at = reader.offset();
    let csiz = reader.read_u16()?;
    if csiz == 0 {
        return Err(SegmentFault::value(at));
    }
    Ok(TileFields {
        xtsiz,
        ytsiz,
        xtosiz,
        ytosiz,
        csiz,
    })
}

// One component's fields: whether its steps are not 0.
fn component_fields(reader: &mut BitReader<'_>) -> Result<bool, SegmentFault<SIZ>>
    ensures { Parses (fields component_table) MadeComponent reader.old reader.new result }
{
    let at = reader.offset();
    let ssiz = reader.read_byte()?;
    if ssiz % 128 + 1 > MAX_PRECISION {
        return Err(SegmentFault::value(at));
    }
    let xrsiz = reader.read_byte()?;
    let yrsiz = reader.read_byte()?;
    Ok(xrsiz > 0 && yrsiz > 0)
}

// All components' fields: whether no step is 0.
fn component_list(reader: &mut BitReader<'_>, count: u16) -> Result<bool, SegmentFault<SIZ>>
    ensures { Parses (components_layout count) (MadeComponents count) reader.old reader.new result }
{
    let mut sampled = true;
    for _k in 0..count {
        sampled &= component_fields(reader)?;
    }
    Ok(sampled)
}

/// All fields of SIZ as they are read, and the place where the component fields begin.
#[derive(Clone, Copy)]
pub(crate) struct SizeFields {
    pub(crate) image: ImageFields,
    pub(crate) tiles: TileFields,
    pub(crate) components: usize,
    pub(crate) sampled: bool,
}

impl SizeFields {
    pub(crate) fn x(&self) -> Axis
        ensures { result ≡ x_axis (fields_grid self.now) }
    {
        Axis {
            size: self.image.xsiz,
            offset: self.image.xosiz,
            side: self.tiles.xtsiz,
            origin: self.tiles.xtosiz,
        }
    }

    pub(crate) fn y(&self) -> Axis
        ensures { result ≡ y_axis (fields_grid self.now) }
    {
        Axis {
            size: self.image.ysiz,
            offset: self.image.yosiz,
            side: self.tiles.ytsiz,
            origin: self.tiles.ytosiz,
        }
    }
}

pub(crate) fn size_fields(reader: &mut BitReader<'_>) -> Result<SizeFields, SegmentFault<SIZ>>
    ensures { Parses siz_layout (MadeSize reader.old) reader.old reader.new result }
{
    let image = image_fields(reader)?;
    let tiles = tile_fields(reader)?;
    let components = reader.offset();
    let sampled = component_list(reader, tiles.csiz)?;
    Ok(SizeFields {
        image,
        tiles,
        components,
        sampled,
    })
}
