//! The code-blocks of a component.
ghost use Rattle.std.specs.Prelude.{◌≡◌};
ghost use Rattle.geometry.specs.Components.{samples};
ghost use Rattle.blocks.specs.Components.{BlocksCover};

use geometry::grid::TileGrid;
use geometry::sampling::Sampling;

/// The number of a component's samples in the image area: the area of its code-blocks in all tiles, resolutions, precincts and sub-bands,
/// whatever coding parameters each tile has, where no precincts are refused.
pub fn component_samples(tiles: &TileGrid, sampling: Sampling) -> u64
    ensures number { result ≡ samples tiles.now sampling }
    ensures blocks_cover { BlocksCover tiles.now sampling result }
{
    tiles.component_area(sampling).area()
}
