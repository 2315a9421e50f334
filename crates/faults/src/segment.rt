ghost use Rattle.faults.specs.Numbers.{cause_place};
ghost use Rattle.faults.specs.declared.segment.Cause.TheVariants.{Short};
ghost use Rattle.std.specs.Prelude.{◌≡◌};

use std::fmt;

/// Bytes are missing: the read that wanted them began at `place`.
#[derive(Clone, Copy, Debug, PartialEq, Eq)]
pub struct ReadFault {
    pub place: usize,
}

/// Why a field of a marker segment was not taken: its bytes are missing, or the field that begins at the place has a refused value.
#[derive(Clone, Copy, Debug, PartialEq, Eq)]
pub enum Cause {
    Short(ReadFault),
    Value(usize),
}

impl Cause {
    /// Where the field begins that was not taken.
    pub fn place(&self) -> usize
        ensures { result ≡ cause_place self.now }
    {
        match self {
            Cause::Short(e) => e.place,
            Cause::Value(place) => *place,
        }
    }
}

impl fmt::Display for Cause {
    ghost use Rattle.faults.specs.Texts.{cause_text};
    ghost use Rattle.std.specs.Prelude.{Some};

    ghost output = { λ e. Some (cause_text e) };

    fn fmt<W: fmt::Write>(&self, f: &mut fmt::Formatter<W>) -> fmt::Result {
        match self {
            Cause::Short(e) => write!(f, "short at {}", e.place),
            Cause::Value(place) => write!(f, "refused at {place}"),
        }
    }
}

/// The fault of a marker segment whose marker has the code byte CODE.
#[derive(Clone, Copy, Debug, PartialEq, Eq)]
pub struct SegmentFault<const CODE: u8> {
    pub cause: Cause,
}

impl<const CODE: u8> SegmentFault<CODE> {
    /// The field that begins at `place` has a refused value.
    pub fn value(place: usize) -> SegmentFault<CODE>
        ensures { result.cause ≡ Cause.Value place }
    {
        SegmentFault {
            cause: Cause::Value(place),
        }
    }
}

impl<const CODE: u8> From<ReadFault> for SegmentFault<CODE> {
    ghost from_gives = { λ e r. r.cause ≡ Short e };

    fn from(e: ReadFault) -> SegmentFault<CODE> {
        SegmentFault {
            cause: Cause::Short(e),
        }
    }
}
