/// What stood in a main header behind SIZ, up to the SOT at `place`.
#[derive(Clone, Copy)]
pub(crate) struct Passed {
    pub(crate) cod: bool,
    pub(crate) qcd: bool,
    pub(crate) packets: usize,
    pub(crate) place: usize,
}
