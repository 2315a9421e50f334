ghost use Rattle.geometry.specs.Tiles.{axis};
ghost use Rattle.picture.specs.Outlines.{ComponentOutlined, Outlined, SizeStated, TilesCover, across, down};
ghost use Rattle.segments.specs.Siz.{grid_in};
ghost use Rattle.std.specs.Prelude.{◌≡◌};

use faults::decode::{DecodeError, MarkerError};
use geometry::axis::TileAxis;
use geometry::grid::TileGrid;
use geometry::sampling::Sampling;
use layouts::markers::SOC;
use reader::reader::BitReader;
use rect::IntRect;
use segments::size::size_marker;
use segments::size_data::{ComponentSizeInfo, SizeData};

/// A picture's sizes, and its tile grid.
#[derive(Clone, Copy)]
pub struct Outline {
    pub size: SizeData,
    pub grid: TileGrid,
}

/// A component's sizes, and its samples in the image area.
#[derive(Clone, Copy)]
pub struct ComponentOutline {
    pub info: ComponentSizeInfo,
    pub samples: IntRect,
}

/// The tile grid of the sizes.
pub fn tile_grid(size: &SizeData) -> TileGrid
    ensures x { axis result.x ≡ across (grid_in size.now) }
    ensures y { axis result.y ≡ down (grid_in size.now) }
{
    let x = TileAxis {
        size: size.xsiz,
        offset: size.xosiz,
        side: size.xtsiz,
        origin: size.xtosiz,
    };
    let y = TileAxis {
        size: size.ysiz,
        offset: size.yosiz,
        side: size.ytsiz,
        origin: size.ytosiz,
    };
    TileGrid { x, y }
}

fn read_sizes(codestream: &[u8]) -> Result<SizeData, DecodeError>
    ensures { SizeStated codestream.now result }
{
    let mut reader = BitReader::new(codestream, 0);
    match reader.read_marker() {
        Ok(SOC) => size_marker(&mut reader),
        _ => Err(MarkerError::Expected {
            code: SOC,
            place: 0,
        }
        .into()),
    }
}

/// Reads the start of a codestream: SOC, and SIZ behind it.
pub fn read_outline(codestream: &[u8]) -> Result<Outline, DecodeError>
    ensures outlined { Outlined codestream.now result }
    ensures tiles { TilesCover result }
{
    let size = read_sizes(codestream)?;
    Ok(Outline {
        size,
        grid: tile_grid(&size),
    })
}

impl Outline {
    /// Component `index`, from the codestream that was outlined.
    pub fn component(&self, codestream: &[u8], index: u16) -> Option<ComponentOutline>
        ensures { ComponentOutlined codestream.now self.now index result }
    {
        let info = self.size.component(codestream, index)?;
        let samples = self.grid.component_area(Sampling {
            x: info.xrsiz,
            y: info.yrsiz,
        });
        Some(ComponentOutline { info, samples })
    }
}
