//! One precinct of a direction.
ghost use Rattle.std.specs.Prelude.{◌≡◌, ◌+◌, ◌*◌, ◌/◌, ◌^◌, ◌<◌, false, slice_index};
ghost use Rattle.precincts.specs.Precincts.{count, cover, far, first_start_of, reach, starts, stride};
ghost use Rattle.precincts.specs.Asked.{direction};

use crate::axis::PrecinctAxis;

/// Precinct `k` of a direction of which none ends at 2^32 or behind it.
#[derive(Clone, Copy)]
pub(crate) struct AxisPrecinct {
    pub(crate) axis: PrecinctAxis,
    pub(crate) k: u32,
    ghost there: { k < count (direction axis) },
    ghost near: { far (direction axis) ≡ false },
}

impl AxisPrecinct {
    // Where the first precinct begins on the reference grid.
    fn first_start(self) -> u32
        ensures { result ≡ first_start_of (direction self.axis) }
    {
        let d = self.axis.stride();
        let x = u64::from(self.axis.from);
        if x % d == 0 {
            return self.axis.from;
        }
        if self.axis.begins_precinct() {
            return ((x / d + 1) * d) as u32;
        }
        self.axis.from
    }

    // Where it begins on the reference grid, if it is not the first.
    fn later_start(self) -> u32
        ensures { result ≡ ((reach (direction self.axis)).from / 2 ^ self.axis.exponent + self.k) * stride (direction self.axis) }
    {
        let cell = u64::from(self.axis.first_cell()) + u64::from(self.k);
        let d = self.axis.stride();
        (cell * d) as u32
    }

    // Where it begins on the reference grid.
    pub(crate) fn start(self) -> u32
        ensures { result ≡ slice_index (starts (direction self.axis)) self.k }
    {
        if self.k == 0 {
            return self.first_start();
        }
        self.later_start()
    }

    // Where it begins in the coordinates of the sub-bands.
    pub(crate) fn cover_start(self) -> u32
        ensures { result ≡ (cover (direction self.axis) self.k).from }
    {
        self.axis.border(self.k) as u32
    }

    // Where it ends in the coordinates of the sub-bands.
    pub(crate) fn cover_end(self) -> u32
        ensures { result ≡ (cover (direction self.axis) self.k).to }
    {
        self.axis.border(self.k + 1) as u32
    }
}
