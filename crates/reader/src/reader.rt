ghost use Rattle.reader.specs.Bytes.{IsArray, IsByte, IsLong, IsPartOf, IsWord, marker_at};
ghost use Rattle.reader.specs.Reads.{Advances, Peeks, ReadsMarker, SameData, Tails, bytes_of};
ghost use Rattle.std.specs.Prelude.{◌≡◌, length, nat_le};

use faults::decode::MarkerError;
use faults::segment::ReadFault;

/// A place in a codestream, which may lie behind its end.
#[derive(Clone, Copy)]
pub struct BitReader<'a> {
    data: &'a [u8],
    place: usize,
}

impl<'a> BitReader<'a> {
    /// A reader of the whole codestream that stands at `place`.
    pub fn new(data: &'a [u8], place: usize) -> BitReader<'a>
        ensures of { result.«data» ≡ «data».entry }
        ensures at { result.place ≡ place }
    {
        BitReader { data, place }
    }

    /// The place where it stands.
    pub fn offset(&self) -> usize
        ensures { result ≡ self.now.place }
    {
        self.place
    }

    /// Whether no byte is left.
    pub fn at_end(&self) -> bool
        ensures { result ≡ nat_le (length (bytes_of self.now)) self.now.place }
    {
        self.place >= self.data.len()
    }

    /// All that is left, or None behind the end.
    pub fn tail(&self) -> Option<&'a [u8]>
        ensures { Tails self.now result }
    {
        // `get` would not say that the part lies in the codestream's memory.
        if self.place <= self.data.len() {
            Some(&self.data[self.place..])
        } else {
            None
        }
    }

    /// Stands at the end.
    pub fn jump_to_end(&mut self)
        ensures at { self.new.place ≡ length (bytes_of self.old) }
        ensures same { SameData self.old self.new }
    {
        self.place = self.data.len();
    }

    /// The next byte, without moving.
    pub fn peek_byte(&self) -> Option<u8>
        ensures { Peeks 1 IsByte self.now result }
    {
        self.data.get(self.place).copied()
    }

    /// The next `len` bytes, without moving.
    pub fn peek_bytes(&self, len: usize) -> Option<&'a [u8]>
        ensures { Peeks len (IsPartOf len) self.now result }
    {
        let rest = self.tail()?;
        if len <= rest.len() {
            Some(&rest[..len])
        } else {
            None
        }
    }

    /// The next byte.
    pub fn read_byte(&mut self) -> Result<u8, ReadFault>
        ensures { Advances 1 IsByte self.old self.new result }
    {
        let place = self.place;
        let byte = self.peek_byte().ok_or(ReadFault { place })?;
        self.place += 1;
        Ok(byte)
    }

    /// The next `len` bytes, as a part of the codestream.
    pub fn read_bytes(&mut self, len: usize) -> Result<&'a [u8], ReadFault>
        ensures { Advances len (IsPartOf len) self.old self.new result }
    {
        let place = self.place;
        let bytes = self.peek_bytes(len).ok_or(ReadFault { place })?;
        self.place += len;
        Ok(bytes)
    }

    // The next N bytes.
    fn read_array<const N: usize>(&mut self) -> Result<[u8; N], ReadFault>
        ensures { Advances N (IsArray N) self.old self.new result }
    {
        let bytes = self.read_bytes(N)?;
        let mut array = [0; N];
        array.copy_from_slice(bytes);
        Ok(array)
    }

    /// Moves behind the next `len` bytes.
    pub fn skip_bytes(&mut self, len: usize) -> Result<(), ReadFault>
        ensures { Advances len (λ _ _ _. Unit {0}) self.old self.new result }
    {
        self.read_bytes(len)?;
        Ok(())
    }

    /// The number in the next two bytes.
    pub fn read_u16(&mut self) -> Result<u16, ReadFault>
        ensures { Advances 2 IsWord self.old self.new result }
    {
        Ok(u16::from_be_bytes(self.read_array()?))
    }

    /// The number in the next four bytes.
    pub fn read_u32(&mut self) -> Result<u32, ReadFault>
        ensures { Advances 4 IsLong self.old self.new result }
    {
        Ok(u32::from_be_bytes(self.read_array()?))
    }

    /// The code byte of the marker that stands here, or None.
    pub fn peek_marker(&self) -> Option<u8>
        ensures { result ≡ marker_at (bytes_of self.now) self.now.place }
    {
        match self.tail()? {
            [0xff, code, ..] => Some(*code),
            _ => None,
        }
    }

    /// The code byte of the marker that stands here, moving behind it.
    pub fn read_marker(&mut self) -> Result<u8, MarkerError>
        ensures reads { ReadsMarker self.old self.new result }
        ensures same { SameData self.old self.new }
    {
        let place = self.place;
        let code = self.peek_marker().ok_or(MarkerError::Invalid { place })?;
        self.place += 2;
        Ok(code)
    }
}
