use bag_runs::Bag;

/// A bag on its way: of which chunk, and sent at which step.
#[derive(Clone, Copy, Debug)]
pub(crate) struct Message {
    pub(crate) chunk: u16,
    pub(crate) step: u8,
    pub(crate) bag: Bag,
}
