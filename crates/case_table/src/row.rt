//! A row of a table.

/// A word and its number.
#[derive(Clone, Copy, Debug)]
pub struct Row {
    pub word: &'static str,
    pub value: u32,
}
