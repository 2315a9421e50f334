/// A number that one of the standard's tables reserves.
#[derive(Clone, Copy, Debug, PartialEq, Eq)]
pub struct ReservedNumber(pub u8);
