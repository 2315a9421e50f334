//! How often a component tile is decomposed.
ghost use Rattle.std.specs.Prelude.{◌≤◌};

/// The number of decomposition levels, N_L.
#[derive(Clone, Copy, Debug, PartialEq, Eq)]
pub struct Decomposition {
    pub levels: u8,
    ghost few: { levels ≤ 32 },
}
