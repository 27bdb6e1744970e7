/// A part of a report. An allreduce has a part that reduces and a part that gathers, and joins the
/// points of the two; each other collective is one part.
#[derive(Clone, Copy, Debug, PartialEq, Eq, PartialOrd, Ord)]
pub enum Part {
    Whole,
    Reduce,
    Gather,
    Joined,
}
