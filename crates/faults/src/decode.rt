ghost use Rattle.faults.specs.Numbers.{marker_place, number_of, place_of, tile_place, validation_place};
ghost use Rattle.faults.specs.declared.decode.DecodeError.TheVariants.{Book, Decoding, Marker, Tile, Validation};
ghost use Rattle.faults.specs.declared.decode.MarkerError.TheVariants.{ParseFailure};
ghost use Rattle.std.specs.Prelude.{◌≡◌};

use crate::segment::{Cause, SegmentFault};
use std::error::Error;
use std::fmt;

/// What stopped a call.
#[derive(Clone, Copy, Debug, PartialEq, Eq)]
pub enum DecodeError {
    Marker(MarkerError),
    Tile(TileError),
    Validation(ValidationError),
    Decoding(DecodingError),
    Book(BookError),
}

/// A marker, or its segment, is not as it must be. `code` is a marker's code byte: a number, as `SegmentFault` has it, since a const parameter
/// takes no enum.
#[derive(Clone, Copy, Debug, PartialEq, Eq)]
pub enum MarkerError {
    /// No 0xFF with a code byte behind it.
    Invalid { place: usize },
    /// A marker that is not taken there.
    Unsupported { place: usize },
    /// Another marker than the one that must stand there.
    Expected { code: u8, place: usize },
    /// The header ended at `place` without this segment.
    Missing { code: u8, place: usize },
    /// A field of the segment is missing or has a refused value.
    ParseFailure { code: u8, cause: Cause },
}

/// A tile, or a tile-part, is not as it must be.
#[derive(Clone, Copy, Debug, PartialEq, Eq)]
pub enum TileError {
    Invalid { place: usize },
    InvalidIndex { place: usize },
    InvalidOffsets { place: usize },
    PpmPptConflict { place: usize },
}

/// Sizes, components or step sizes do not go together.
#[derive(Clone, Copy, Debug, PartialEq, Eq)]
pub enum ValidationError {
    InvalidDimensions { place: usize },
    ImageTooLarge { place: usize },
    InvalidComponentMetadata { place: usize },
    MissingPrecinctExponents { place: usize },
    InsufficientExponents { place: usize },
    MissingStepSize,
    InvalidExponents,
}

/// The geometry passes the widths that it is computed in.
#[derive(Clone, Copy, Debug, PartialEq, Eq)]
pub enum DecodingError {
    /// A resolution has no precincts.
    InvalidPrecinct,
    /// A precinct ends at 2^32 or behind it.
    PrecinctTooFar,
    /// A total is above 2^63 - 1.
    TotalTooLarge,
}

/// The caller asks what the tile book or the tables cannot answer.
#[derive(Clone, Copy, Debug, PartialEq, Eq)]
pub enum BookError {
    Empty,
    Open,
    NoSuchIndex,
    TableTooShort,
    PartOutside,
}

impl DecodeError {
    /// The number of the fault, 1 to 24.
    pub fn number(&self) -> u8
        ensures { result ≡ number_of self.now }
    {
        match self {
            DecodeError::Marker(MarkerError::Invalid { .. }) => 1,
            DecodeError::Marker(MarkerError::Unsupported { .. }) => 2,
            DecodeError::Marker(MarkerError::Expected { .. }) => 3,
            DecodeError::Marker(MarkerError::Missing { .. }) => 4,
            DecodeError::Marker(MarkerError::ParseFailure { .. }) => 5,
            DecodeError::Tile(TileError::Invalid { .. }) => 6,
            DecodeError::Tile(TileError::InvalidIndex { .. }) => 7,
            DecodeError::Tile(TileError::InvalidOffsets { .. }) => 8,
            DecodeError::Tile(TileError::PpmPptConflict { .. }) => 9,
            DecodeError::Validation(ValidationError::InvalidDimensions { .. }) => 10,
            DecodeError::Validation(ValidationError::ImageTooLarge { .. }) => 11,
            DecodeError::Validation(ValidationError::InvalidComponentMetadata { .. }) => 12,
            DecodeError::Validation(ValidationError::MissingPrecinctExponents { .. }) => 13,
            DecodeError::Validation(ValidationError::InsufficientExponents { .. }) => 14,
            DecodeError::Validation(ValidationError::MissingStepSize) => 15,
            DecodeError::Validation(ValidationError::InvalidExponents) => 16,
            DecodeError::Decoding(DecodingError::InvalidPrecinct) => 17,
            DecodeError::Decoding(DecodingError::PrecinctTooFar) => 18,
            DecodeError::Decoding(DecodingError::TotalTooLarge) => 19,
            DecodeError::Book(BookError::Empty) => 20,
            DecodeError::Book(BookError::Open) => 21,
            DecodeError::Book(BookError::NoSuchIndex) => 22,
            DecodeError::Book(BookError::TableTooShort) => 23,
            DecodeError::Book(BookError::PartOutside) => 24,
        }
    }

    /// The place in the codestream that the fault carries: every one up to 14 has one, the others have none.
    pub fn place(&self) -> Option<usize>
        ensures { result ≡ place_of self.now }
    {
        match self {
            DecodeError::Marker(e) => Some(e.place()),
            DecodeError::Tile(e) => Some(e.place()),
            DecodeError::Validation(e) => e.place(),
            DecodeError::Decoding(_) | DecodeError::Book(_) => None,
        }
    }
}

impl fmt::Display for DecodeError {
    ghost use Rattle.faults.specs.Texts.{fault_text};
    ghost use Rattle.std.specs.Prelude.{Some};

    ghost output = { λ e. Some (fault_text e) };

    fn fmt<W: fmt::Write>(&self, f: &mut fmt::Formatter<W>) -> fmt::Result {
        write!(f, "{},{}", self.number(), self.place().unwrap_or(0))
    }
}

impl Error for DecodeError {}

impl MarkerError {
    fn place(&self) -> usize
        ensures { result ≡ marker_place self.now }
    {
        match self {
            MarkerError::Invalid { place }
            | MarkerError::Unsupported { place }
            | MarkerError::Expected { place, .. }
            | MarkerError::Missing { place, .. } => *place,
            MarkerError::ParseFailure { cause, .. } => cause.place(),
        }
    }
}

impl TileError {
    fn place(&self) -> usize
        ensures { result ≡ tile_place self.now }
    {
        match self {
            TileError::Invalid { place }
            | TileError::InvalidIndex { place }
            | TileError::InvalidOffsets { place }
            | TileError::PpmPptConflict { place } => *place,
        }
    }
}

impl ValidationError {
    fn place(&self) -> Option<usize>
        ensures { result ≡ validation_place self.now }
    {
        match self {
            ValidationError::InvalidDimensions { place }
            | ValidationError::ImageTooLarge { place }
            | ValidationError::InvalidComponentMetadata { place }
            | ValidationError::MissingPrecinctExponents { place }
            | ValidationError::InsufficientExponents { place } => Some(*place),
            ValidationError::MissingStepSize | ValidationError::InvalidExponents => None,
        }
    }
}

// These are written out, since a derived `From` states no contract.
impl From<MarkerError> for DecodeError {
    ghost from_gives = { λ e r. r ≡ Marker e };

    fn from(e: MarkerError) -> DecodeError {
        DecodeError::Marker(e)
    }
}

impl From<TileError> for DecodeError {
    ghost from_gives = { λ e r. r ≡ Tile e };

    fn from(e: TileError) -> DecodeError {
        DecodeError::Tile(e)
    }
}

impl From<ValidationError> for DecodeError {
    ghost from_gives = { λ e r. r ≡ Validation e };

    fn from(e: ValidationError) -> DecodeError {
        DecodeError::Validation(e)
    }
}

impl From<DecodingError> for DecodeError {
    ghost from_gives = { λ e r. r ≡ Decoding e };

    fn from(e: DecodingError) -> DecodeError {
        DecodeError::Decoding(e)
    }
}

impl From<BookError> for DecodeError {
    ghost from_gives = { λ e r. r ≡ Book e };

    fn from(e: BookError) -> DecodeError {
        DecodeError::Book(e)
    }
}

impl<const CODE: u8> From<SegmentFault<CODE>> for DecodeError {
    ghost from_gives = { λ e r. r ≡ Marker (ParseFailure CODE e.cause) };

    fn from(e: SegmentFault<CODE>) -> DecodeError {
        DecodeError::Marker(MarkerError::ParseFailure {
            code: CODE,
            cause: e.cause,
        })
    }
}
