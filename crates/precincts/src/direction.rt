//! The precincts of one direction: how many, where, and what is refused.
ghost use Rattle.std.specs.Prelude.{◌≡◌, ◌-◌, ◌/◌, ◌%◌, ◌^◌, ◌<◌, ◌≤◌, ◌==◌};
ghost use Rattle.rect.specs.Numbers.{ceil};
ghost use Rattle.precincts.specs.Precincts.{count, cover, far, halved, reach, stride, unfit};
ghost use Rattle.precincts.specs.Asked.{direction};

use crate::axis::PrecinctAxis;
use bands::numbers::{ceil_div_pow, floor_div_pow};

impl PrecinctAxis {
    // N_L - r
    fn depth(self) -> u8
        ensures { result ≡ self.resolution.levels - self.resolution.r }
    {
        self.resolution.levels - self.resolution.r
    }

    // tcx0 or tcy0
    #[tactic(auto, using(rect::proofs::Ceil::ceil_code))]
    pub(crate) fn sample_start(self) -> u32
        ensures { result ≡ ceil self.from self.step }
    {
        self.from.div_ceil(u32::from(self.step))
    }

    // tcx1 or tcy1
    #[tactic(auto, using(rect::proofs::Ceil::ceil_code))]
    pub(crate) fn sample_end(self) -> u32
        ensures { result ≡ ceil self.to self.step }
    {
        self.to.div_ceil(u32::from(self.step))
    }

    // trx0 or try0
    fn reach_start(self) -> u32
        ensures { result ≡ (reach (direction self)).from }
    {
        ceil_div_pow(self.sample_start(), self.depth())
    }

    // trx1 or try1
    fn reach_end(self) -> u32
        ensures { result ≡ (reach (direction self)).to }
    {
        ceil_div_pow(self.sample_end(), self.depth())
    }

    // The column of the grid of steps 2^PPx, from 0, in which the resolution begins.
    pub(crate) fn first_cell(self) -> u32
        ensures { result ≡ (reach (direction self)).from / 2 ^ self.exponent }
    {
        floor_div_pow(self.reach_start(), self.exponent)
    }

    // A precinct's size on the reference grid.
    pub(crate) fn stride(self) -> u64
        ensures value { result ≡ stride (direction self) }
        ensures some { 0 < result }
        ensures small { result < 2 ^ 55 }
    {
        u64::from(self.step) << (self.exponent + self.depth())
    }

    // How many precincts (B-16).
    pub(crate) fn count(self) -> u32
        ensures { result ≡ count (direction self) }
    {
        let end = self.reach_end();
        if self.reach_start() >= end {
            return 0;
        }
        ceil_div_pow(end, self.exponent) - self.first_cell()
    }

    // Whether the resolution begins where a precinct does.
    pub(crate) fn begins_precinct(self) -> bool
        ensures { result ≡ ((reach (direction self)).from % 2 ^ self.exponent == 0) }
    {
        self.reach_start() % (1 << self.exponent) == 0
    }

    // A precinct's size in the coordinates of the sub-bands.
    fn side(self) -> u64
        ensures value { result ≡ 2 ^ halved self.resolution.r self.exponent }
        ensures small { result ≤ 2 ^ 15 }
    {
        if self.resolution.r == 0 {
            return 1 << self.exponent;
        }
        1 << self.exponent.saturating_sub(1)
    }

    // Where precinct `k` begins in the coordinates of the sub-bands, and the one before it ends.
    pub(crate) fn border(self, k: u32) -> u64
        ensures { result ≡ (cover (direction self) k).from }
    {
        let side = self.side();
        u64::from(self.first_cell()) * side + u64::from(k) * side
    }

    // Sizes that give no precincts.
    pub(crate) fn is_unfit(self) -> bool
        ensures { result ≡ unfit (direction self) }
    {
        (self.resolution.r > 0 && self.exponent == 0)
            || (self.exponent + self.depth() >= 32 || self.stride() >= 0x1_0000_0000)
    }

    // The last precinct ends at 2^32 or behind it.
    pub(crate) fn is_far(self) -> bool
        requires { 0 < count (direction self) }
        ensures { result ≡ far (direction self) }
    {
        self.border(self.count()) >= 0x1_0000_0000
    }
}
