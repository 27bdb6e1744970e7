//! The words that name what is read or written as JSON.

ghost use Rattle.std.specs.Prelude.{◌≡◌};
ghost use Rattle.command_words.specs.Tables.{named, what_word, whats};

use crate::command::JsonWhat;

/// The value with this name.
pub fn what_of_word(word: &str) -> Option<JsonWhat>
    ensures { result ≡ named what_word whats word.now }
{
    match word {
        "topology" => Some(JsonWhat::Topology),
        "report" => Some(JsonWhat::Report),
        "programs" => Some(JsonWhat::Programs),
        _ => None,
    }
}
