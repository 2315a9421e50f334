//! The code-blocks of one direction.
ghost use Rattle.std.specs.Prelude.{◌≡◌, ◌^◌, ◌<◌, ◌≤◌};
ghost use Rattle.rect.specs.Spans.{span};
ghost use Rattle.blocks.specs.CodeBlocks.{block_count_of, block_span};

use bands::numbers::{ceil_div_pow, floor_div_pow};

/// The span [from, to), and the code-blocks' size of 2^exponent.
#[derive(Clone, Copy)]
pub(crate) struct BlockAxis {
    pub(crate) from: u32,
    pub(crate) to: u32,
    pub(crate) exponent: u8,
    ghost small: { exponent ≤ 15 },
}

impl BlockAxis {
    // How many code-blocks reach into the span.
    pub(crate) fn count(self) -> u32
        ensures { result ≡ block_count_of (2 ^ self.exponent) (span self.from self.to) }
    {
        if self.from >= self.to {
            return 0;
        }
        ceil_div_pow(self.to, self.exponent) - floor_div_pow(self.from, self.exponent)
    }

    // Where code-block `i` begins.
    pub(crate) fn block_start(self, i: u32) -> u32
        requires { i < block_count_of (2 ^ self.exponent) (span self.from self.to) }
        ensures { result ≡ (block_span (2 ^ self.exponent) (span self.from self.to) i).from }
    {
        let cell = u64::from(floor_div_pow(self.from, self.exponent)) + u64::from(i);
        let start = cell << self.exponent;
        start.max(u64::from(self.from)) as u32
    }

    // Where code-block `i` ends.
    pub(crate) fn block_end(self, i: u32) -> u32
        ensures { result ≡ (block_span (2 ^ self.exponent) (span self.from self.to) i).to }
    {
        let cell = u64::from(floor_div_pow(self.from, self.exponent)) + u64::from(i);
        let end = (cell + 1) << self.exponent;
        end.min(u64::from(self.to)) as u32
    }
}
