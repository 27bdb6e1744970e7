//! The words that name collectives.

ghost use Rattle.std.specs.Prelude.{◌≡◌};
ghost use Rattle.collective_spec.specs.Kinds.{every_kind, word_of};
ghost use Rattle.command_words.specs.Tables.{named};

use collective_spec::Kind;

/// The kind of collective with this name.
pub fn kind_of_word(word: &str) -> Option<Kind>
    ensures { result ≡ named word_of every_kind word.now }
{
    Kind::of_word(word)
}
