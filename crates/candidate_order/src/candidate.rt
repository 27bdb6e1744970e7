/// The size of a schedule that is sought: `s` steps of `r` rounds in all, with the chunk count `c`.
#[derive(Clone, Copy, Debug, PartialEq, Eq)]
pub struct Candidate {
    pub s: u8,
    pub r: u8,
    pub c: u8,
}
