//! The keys of the words behind the first, and what they take.

ghost use Rattle.std.specs.{Prelude.{◌≡◌}, List.list_any};
ghost use Rattle.command_words.specs.{Tables.{key_row, key_word, keys, named, same_key, Number}, Words.fits};

use crate::kind_word::kind_of_word;
use crate::what_word::what_of_word;
use candidate_order::{MAX_CHUNKS, MAX_CONFLICTS, MAX_K, MAX_STEPS};
use text_lines::read_number;
use topology_families::FamilyKind;
use topology_text::Name;

/// The greatest number of a point.
pub const MAX_POINT: u64 = 65_535;

/// The greatest size of a family, in nodes.
pub const MAX_SIZE: u64 = 16;

/// The greatest number of a trial.
pub const MAX_TRIAL: u64 = 4095;

/// The greatest number of a group, counted from 0.
pub const MAX_GROUP: u64 = 255;

/// The greatest width of a group.
pub const MAX_WIDTH: u64 = 16;

/// What stands before the `=` of a word.
#[derive(Clone, Copy, PartialEq, Eq)]
pub enum Key {
    Collective,
    K,
    Steps,
    Chunks,
    Conflicts,
    Root,
    Point,
    Order,
    Kind,
    Size,
    N,
    Group,
    Width,
    What,
    Cuts,
    Ordered,
    Kept,
    Sets,
}

/// Whether the key is one of these.
pub fn is_among(key: Key, keys: &[Key]) -> bool
    ensures { result ≡ list_any (same_key key) keys.now }
{
    keys.iter().any(|other| key.is(*other))
}

/// Whether the text is a number from `least` to `greatest`.
fn is_number(text: &str, least: u64, greatest: u64) -> bool
    ensures { result ≡ fits (Number least greatest) text.now }
{
    match read_number(text.as_bytes(), greatest) {
        Some(number) => least <= number,
        None => false,
    }
}

impl Key {
    /// The key with this name.
    pub fn of_word(word: &str) -> Option<Key>
        ensures { result ≡ named key_word keys word.now }
    {
        match word {
            "collective" => Some(Key::Collective),
            "k" => Some(Key::K),
            "steps" => Some(Key::Steps),
            "chunks" => Some(Key::Chunks),
            "conflicts" => Some(Key::Conflicts),
            "root" => Some(Key::Root),
            "point" => Some(Key::Point),
            "order" => Some(Key::Order),
            "kind" => Some(Key::Kind),
            "size" => Some(Key::Size),
            "n" => Some(Key::N),
            "group" => Some(Key::Group),
            "width" => Some(Key::Width),
            "what" => Some(Key::What),
            "cuts" => Some(Key::Cuts),
            "ordered" => Some(Key::Ordered),
            "kept" => Some(Key::Kept),
            "sets" => Some(Key::Sets),
            _ => None,
        }
    }

    /// Whether it is this key.
    pub fn is(self, other: Key) -> bool
        ensures { result ≡ same_key self other }
    {
        self == other
    }

    /// Whether the key takes the value.
    pub fn takes(self, text: &str) -> bool
        ensures { result ≡ fits (key_row self).1 text.now }
    {
        match self {
            Key::Collective => kind_of_word(text).is_some(),
            Key::K => is_number(text, 0, u64::from(MAX_K)),
            Key::Steps => is_number(text, 1, u64::from(MAX_STEPS)),
            Key::Chunks => is_number(text, 1, u64::from(MAX_CHUNKS)),
            Key::Conflicts => is_number(text, 1, u64::from(MAX_CONFLICTS)),
            Key::Root => Name::of_bytes(text.as_bytes()).is_some(),
            Key::Point => is_number(text, 1, MAX_POINT),
            Key::Order => is_number(text, 0, u64::MAX),
            Key::Kind => FamilyKind::of_word(text).is_some(),
            Key::Size => is_number(text, 1, MAX_SIZE),
            Key::N => is_number(text, 0, MAX_TRIAL),
            Key::Group => is_number(text, 0, MAX_GROUP),
            Key::Width => is_number(text, 0, MAX_WIDTH),
            Key::What => what_of_word(text).is_some(),
            Key::Cuts | Key::Ordered | Key::Kept => "yes" == text,
            Key::Sets => "all" == text,
        }
    }
}
