/// A piece between line feeds, from the byte `start` of the text up to but not including `end`,
/// where its line feed stands. Lines are numbered from 1, and `whole` says that a line feed ended
/// it.
#[derive(Clone, Copy, Debug)]
pub struct Line {
    pub number: u32,
    pub start: usize,
    pub end: usize,
    pub whole: bool,
}
