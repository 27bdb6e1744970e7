//! What words give: keys with their values.

ghost use Rattle.std.specs.{Prelude.{◌≡◌, ◌≤◌, IfSome, option_map}, Str.Parse.digits_value};
ghost use Rattle.candidate_order.specs.Ranges.{IsLimits};
ghost use Rattle.command_words.specs.{Given.{family_at, given_at, is_given, kind_at, limits_at, number_at, root_at, text_at, what_at, word_at}, Tables.key_row, inner.Seen.{AreFit, IsUpTo, seen, seen_all}};

use crate::command::{JsonWhat, RootWord};
use crate::key::Key;
use crate::kind_word::kind_of_word;
use crate::what_word::what_of_word;
use candidate_order::{Limits, MAX_CHUNKS, MAX_CONFLICTS, MAX_K, MAX_STEPS, Pruning};
use collective_spec::Kind;
use text_lines::read_number;
use topology_families::FamilyKind;
use topology_text::Name;

/// A key, its value as it is written, and the index of its word.
#[derive(Clone, Copy)]
pub struct GivenWord<'a> {
    pub key: Key,
    pub text: &'a str,
    pub word: u32,
}

/// What gives the key.
pub fn given_at<'a>(key: Key, given: &[GivenWord<'a>]) -> Option<GivenWord<'a>>
    ensures { option_map seen result ≡ given_at key (seen_all given.now) }
{
    for word in given {
        if key.is(word.key) {
            return Some(*word);
        }
    }
    None
}

/// Whether the key is given.
pub fn is_given(key: Key, given: &[GivenWord<'_>]) -> bool
    ensures { result ≡ is_given key (seen_all given.now) }
{
    matches!(given_at(key, given), Some(_))
}

/// The value of the key as it is written.
fn text_at<'a>(key: Key, given: &[GivenWord<'a>]) -> &'a str
    ensures { result.now ≡ text_at key (seen_all given.now) }
{
    match given_at(key, given) {
        Some(given) => given.text,
        None => "",
    }
}

/// The index of the word that gives the key.
pub fn word_at(key: Key, given: &[GivenWord<'_>]) -> u32
    ensures { result ≡ word_at key (seen_all given.now) }
{
    match given_at(key, given) {
        Some(given) => given.word,
        None => 0,
    }
}

/// The number that the key is given, if it is given.
pub fn number_given(key: Key, greatest: u64, given: &[GivenWord<'_>]) -> Option<u64>
    requires fit { AreFit (seen_all given.now) }
    requires greatest { IsUpTo greatest (key_row key).1 }
    ensures value { result ≡ option_map (λ given. digits_value 10 given.text) (given_at key (seen_all given.now)) }
    ensures greatest { IfSome result (λ number. number ≤ greatest) }
{
    match given_at(key, given) {
        Some(given) => read_number(given.text.as_bytes(), greatest),
        None => None,
    }
}

/// The number that the key is given.
pub fn number_at(key: Key, greatest: u64, given: &[GivenWord<'_>]) -> u64
    requires fit { AreFit (seen_all given.now) }
    requires greatest { IsUpTo greatest (key_row key).1 }
    ensures value { result ≡ number_at key (seen_all given.now) }
    ensures greatest { result ≤ greatest }
{
    match number_given(key, greatest, given) {
        Some(number) => number,
        None => 0,
    }
}

/// The kind of collective.
pub fn kind_at(given: &[GivenWord<'_>]) -> Kind
    ensures { result ≡ kind_at (seen_all given.now) }
{
    kind_of_word(text_at(Key::Collective, given)).unwrap_or(Kind::Custom)
}

/// The kind of family.
pub fn family_at(given: &[GivenWord<'_>]) -> FamilyKind
    ensures { result ≡ family_at (seen_all given.now) }
{
    FamilyKind::of_word(text_at(Key::Kind, given)).unwrap_or(FamilyKind::Line)
}

/// What is read or written as JSON.
pub fn what_at(given: &[GivenWord<'_>]) -> JsonWhat
    ensures { result ≡ what_at (seen_all given.now) }
{
    what_of_word(text_at(Key::What, given)).unwrap_or(JsonWhat::Topology)
}

/// The root, where one is named.
pub fn root_at(given: &[GivenWord<'_>]) -> Option<RootWord>
    requires { AreFit (seen_all given.now) }
    ensures { result ≡ root_at (seen_all given.now) }
{
    let root = given_at(Key::Root, given)?;
    let name = Name::of_bytes(root.text.as_bytes())?;
    Some(RootWord {
        name,
        word: root.word,
    })
}

/// The limits of a search, which leaves this out.
pub fn limits_at(given: &[GivenWord<'_>], pruning: Pruning) -> Limits
    requires fit { AreFit (seen_all given.now) }
    requires limits { IsLimits (limits_at (seen_all given.now) pruning) }
    ensures { result ≡ limits_at (seen_all given.now) pruning }
{
    let k = number_at(Key::K, u64::from(MAX_K), given) as u8;
    let max_s = number_at(Key::Steps, u64::from(MAX_STEPS), given) as u8;
    let max_c = number_at(Key::Chunks, u64::from(MAX_CHUNKS), given) as u8;
    let conflicts = number_at(Key::Conflicts, u64::from(MAX_CONFLICTS), given) as u32;
    Limits::new(k, max_s, max_c, conflicts).with_pruning(pruning)
}
