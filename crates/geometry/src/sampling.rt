//! How far apart a component's samples stand.
ghost use Rattle.std.specs.Prelude.{◌<◌};

/// XRsiz and YRsiz of a component.
#[derive(Clone, Copy, Debug, PartialEq, Eq)]
pub struct Sampling {
    pub x: u8,
    pub y: u8,
    ghost across: { 0 < x },
    ghost down: { 0 < y },
}
