/// Which header a marker segment stands in.
#[derive(Clone, Copy, Debug, PartialEq, Eq)]
pub enum HeaderKind {
    Main,
    TilePart,
}
