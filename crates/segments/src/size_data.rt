ghost use Rattle.std.specs.Prelude.{◌+◌, ◌*◌, ◌^◌, ◌<◌, ◌≤◌};
ghost use Rattle.rect.specs.Spans.{reaching};

/// One direction of the reference grid, as SIZ has it: the image reaches from `offset` to `size`, the tiles begin at `origin` and are `side`
/// wide. Not geometry's `TileAxis`, whose ranges these numbers are only tested for.
#[derive(Clone, Copy)]
pub(crate) struct Axis {
    pub(crate) size: u32,
    pub(crate) offset: u32,
    pub(crate) side: u32,
    pub(crate) origin: u32,
}

/// The image area on the reference grid, as SIZ has it.
#[derive(Clone, Copy)]
pub(crate) struct ImageFields {
    pub(crate) xsiz: u32,
    pub(crate) ysiz: u32,
    pub(crate) xosiz: u32,
    pub(crate) yosiz: u32,
    ghost filled: { (xosiz < xsiz) × (yosiz < ysiz) },
}

/// The tiles on the reference grid, as SIZ has them, and the number of components.
#[derive(Clone, Copy)]
pub(crate) struct TileFields {
    pub(crate) xtsiz: u32,
    pub(crate) ytsiz: u32,
    pub(crate) xtosiz: u32,
    pub(crate) ytosiz: u32,
    pub(crate) csiz: u16,
    ghost some: { 0 < csiz },
}

/// What SIZ says of the reference grid, under the names of its fields: the image area, the tiles and the number of components; and the
/// place where the component fields begin. Every value is one that is accepted.
#[derive(Clone, Copy, Debug, PartialEq, Eq)]
pub struct SizeData {
    pub xsiz: u32,
    pub ysiz: u32,
    pub xosiz: u32,
    pub yosiz: u32,
    pub xtsiz: u32,
    pub ytsiz: u32,
    pub xtosiz: u32,
    pub ytosiz: u32,
    pub csiz: u16,
    pub components: usize,
    ghost filled: { (xosiz < xsiz) × (yosiz < ysiz) },
    ghost sided: { (0 < xtsiz) × (0 < ytsiz) },
    ghost before: { (xtosiz ≤ xosiz) × (ytosiz ≤ yosiz) },
    ghost reached: { (xosiz < xtosiz + xtsiz) × (yosiz < ytosiz + ytsiz) },
    ghost narrow: { (xtosiz + xtsiz < 2 ^ 32) × (ytosiz + ytsiz < 2 ^ 32) },
    ghost few: { reaching xtosiz xtsiz xsiz * reaching ytosiz ytsiz ysiz < 2 ^ 32 },
    ghost some: { 0 < csiz },
}

/// What SIZ says of one component: the bits of a sample, and its steps on the reference grid.
#[derive(Clone, Copy, Debug, PartialEq, Eq)]
pub struct ComponentSizeInfo {
    pub precision: u8,
    pub xrsiz: u8,
    pub yrsiz: u8,
    ghost precise: { (1 ≤ precision) × (precision ≤ 31) },
    ghost sampled: { (0 < xrsiz) × (0 < yrsiz) },
}
