//! The first word: what is to be done.

ghost use Rattle.std.specs.Prelude.{◌≡◌};
ghost use Rattle.command_words.specs.{Tables.{has_key, named, verb_row, verb_word, verbs}, Words.is_refused};

use crate::key::{Key, is_among};

/// The first word of a command.
#[derive(Clone, Copy)]
pub enum Verb {
    Synth,
    Check,
    Replay,
    Programs,
    Family,
    Trial,
    Bound,
    Ordered,
    Degrade,
    Json,
    Unjson,
}

impl Verb {
    /// The verb with this name.
    pub fn of_word(word: &str) -> Option<Verb>
        ensures { result ≡ named verb_word verbs word.now }
    {
        match word {
            "synth" => Some(Verb::Synth),
            "check" => Some(Verb::Check),
            "replay" => Some(Verb::Replay),
            "programs" => Some(Verb::Programs),
            "family" => Some(Verb::Family),
            "trial" => Some(Verb::Trial),
            "bound" => Some(Verb::Bound),
            "ordered" => Some(Verb::Ordered),
            "degrade" => Some(Verb::Degrade),
            "json" => Some(Verb::Json),
            "unjson" => Some(Verb::Unjson),
            _ => None,
        }
    }

    /// The keys that the command requires.
    pub fn required(self) -> &'static [Key]
        ensures { result.now ≡ (verb_row self).required }
    {
        match self {
            Verb::Synth | Verb::Bound | Verb::Ordered => &[
                Key::Collective,
                Key::K,
                Key::Steps,
                Key::Chunks,
                Key::Conflicts,
            ],
            Verb::Check => &[],
            Verb::Replay | Verb::Programs => &[Key::Point],
            Verb::Family => &[Key::Kind, Key::Size],
            Verb::Trial => &[Key::N],
            Verb::Degrade => &[Key::Group, Key::Width],
            Verb::Json | Verb::Unjson => &[Key::What],
        }
    }

    /// The keys that the command may have besides.
    fn may(self) -> &'static [Key]
        ensures { result.now ≡ (verb_row self).may }
    {
        match self {
            Verb::Synth => &[Key::Root, Key::Cuts, Key::Ordered, Key::Kept],
            Verb::Bound => &[Key::Root, Key::Sets],
            Verb::Ordered => &[Key::Root],
            Verb::Replay => &[Key::Order],
            Verb::Json => &[Key::Point],
            _ => &[],
        }
    }

    /// Whether the command has the key.
    pub fn has(self, key: Key) -> bool
        ensures { result ≡ has_key self key }
    {
        is_among(key, self.required()) || is_among(key, self.may())
    }

    /// Whether the command does not take the value, which its key may take: those that tell of one
    /// search take no allreduce, which has two, and programs are not read.
    pub fn refuses(self, key: Key, text: &str) -> bool
        ensures { result ≡ is_refused self key text.now }
    {
        match self {
            Verb::Bound | Verb::Ordered => Key::Collective.is(key) && "allreduce" == text,
            Verb::Unjson => Key::What.is(key) && "programs" == text,
            _ => false,
        }
    }
}
