//! One resolution of a component tile.
ghost use Rattle.std.specs.Prelude.{◌≤◌};

/// Resolution `r` of a component tile with N_L = `levels`.
#[derive(Clone, Copy, Debug, PartialEq, Eq)]
pub struct Resolution {
    pub levels: u8,
    pub r: u8,
    ghost there: { r ≤ levels },
    ghost few: { levels ≤ 32 },
}
