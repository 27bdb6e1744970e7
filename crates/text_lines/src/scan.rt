//! The scan for a separator, which cuts texts into lines, lines into tokens, and tokens into sides.

ghost use Rattle.std.specs.Prelude.{◌≡◌, ◌≢◌, ℕ, ◌<◌, ◌≤◌, length, slice_index};

/// Where the separator stands first in the text from byte `from` on and before byte `to`, or else
/// `to`.
pub fn end_of(text: &[u8], from: usize, to: usize, separator: u8) -> usize
    requires ordered { from ≤ to }
    requires within { to ≤ length text.now }
    ensures after { from ≤ result }
    ensures before { result ≤ to }
    ensures apart { (k : ℕ) → from ≤ k → k < result → slice_index text.now k ≢ separator }
    ensures stops { result < to → slice_index text.now result ≡ separator }
{
    for i in from..to {
        if text[i] == separator {
            return i;
        }
    }
    to
}
