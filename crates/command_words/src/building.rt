//! Commands, from what their words give.

ghost use Rattle.std.specs.{Prelude.{◌≡◌, ◌≤◌, IfOk, IfErr, option_map}, Str.Parse.digits_value};
ghost use Rattle.command_words.specs.{Codes.word_number, Commands.{blame, command_for, command_from, required, IsProper}, Given.given_at, inner.Seen.{AreFit, AreRight, has_idle_point, has_idle_root, has_required, has_wrong_size, seen_all}};

use crate::command::{Command, JsonWhat, PointWord};
use crate::fault::{WordCode, WordFault};
use crate::given::{
    GivenWord, family_at, is_given, kind_at, limits_at, number_at, number_given, root_at, what_at,
    word_at,
};
use crate::key::{Key, MAX_GROUP, MAX_POINT, MAX_SIZE, MAX_TRIAL, MAX_WIDTH, is_among};
use crate::verb::Verb;
use candidate_order::Pruning;
use collective_spec::takes_root;
use topology_families::family_allows;

/// The keys that have to be given; programs as JSON require a point.
fn required(verb: Verb, given: &[GivenWord<'_>]) -> &'static [Key]
    ensures { result.now ≡ required verb (seen_all given.now) }
{
    match (verb, what_at(given)) {
        (Verb::Json, JsonWhat::Programs) => &[Key::What, Key::Point],
        _ => verb.required(),
    }
}

/// A refusal at the word that gives the key.
fn blame(code: WordCode, key: Key, given: &[GivenWord<'_>]) -> WordFault
    ensures { result ≡ blame code key (seen_all given.now) }
{
    WordFault {
        code,
        word: word_at(key, given),
    }
}

/// The point that is named, and the index of its word.
fn point_at(given: &[GivenWord<'_>]) -> Option<PointWord>
    requires { AreFit (seen_all given.now) }
    ensures { result ≡ option_map (λ point. record { point = digits_value 10 point.text; word = point.word }) (given_at Key.Point (seen_all given.now)) }
{
    match number_given(Key::Point, MAX_POINT, given) {
        Some(point) => Some(PointWord {
            point: point as u32,
            word: word_at(Key::Point, given),
        }),
        None => None,
    }
}

/// The command of what is given, where this has the keys that it requires.
fn command_for(verb: Verb, given: &[GivenWord<'_>]) -> Command
    requires fit { AreFit (seen_all given.now) }
    requires proper { IsProper (command_for verb (seen_all given.now)) }
    ensures { result ≡ command_for verb (seen_all given.now) }
{
    match verb {
        Verb::Synth => Command::Synth {
            kind: kind_at(given),
            kind_word: word_at(Key::Collective, given),
            limits: limits_at(
                given,
                Pruning {
                    cuts: is_given(Key::Cuts, given),
                    ordered: is_given(Key::Ordered, given),
                },
            ),
            root: root_at(given),
            kept: is_given(Key::Kept, given),
        },
        Verb::Check => Command::Check,
        Verb::Replay => Command::Replay {
            point: number_at(Key::Point, MAX_POINT, given) as u32,
            point_word: word_at(Key::Point, given),
            order: number_given(Key::Order, u64::MAX, given),
        },
        Verb::Programs => Command::Programs {
            point: number_at(Key::Point, MAX_POINT, given) as u32,
            point_word: word_at(Key::Point, given),
        },
        Verb::Family => Command::Family {
            kind: family_at(given),
            size: number_at(Key::Size, MAX_SIZE, given) as u8,
        },
        Verb::Trial => Command::Trial {
            n: number_at(Key::N, MAX_TRIAL, given) as u16,
        },
        Verb::Bound => Command::Bound {
            kind: kind_at(given),
            kind_word: word_at(Key::Collective, given),
            limits: limits_at(given, Pruning::none()),
            root: root_at(given),
            all_sets: is_given(Key::Sets, given),
        },
        Verb::Ordered => Command::Ordered {
            kind: kind_at(given),
            kind_word: word_at(Key::Collective, given),
            limits: limits_at(given, Pruning::none()),
            root: root_at(given),
        },
        Verb::Degrade => Command::Degrade {
            group: number_at(Key::Group, MAX_GROUP, given) as u16,
            group_word: word_at(Key::Group, given),
            width: number_at(Key::Width, MAX_WIDTH, given) as u8,
            width_word: word_at(Key::Width, given),
        },
        Verb::Json => Command::Json {
            what: what_at(given),
            point: point_at(given),
        },
        Verb::Unjson => Command::Unjson {
            what: what_at(given),
        },
    }
}

/// Whether a point is named where the command asks for none.
fn has_idle_point(verb: Verb, given: &[GivenWord<'_>]) -> bool
    ensures { result ≡ has_idle_point verb (seen_all given.now) }
{
    verb.has(Key::Point)
        && is_given(Key::Point, given)
        && !is_among(Key::Point, required(verb, given))
}

/// Whether each key is given that has to be.
fn has_required(verb: Verb, given: &[GivenWord<'_>]) -> bool
    ensures { result ≡ has_required verb (seen_all given.now) }
{
    required(verb, given)
        .iter()
        .all(|key| is_given(*key, given))
}

/// Whether a root is named where the collective takes none.
fn has_idle_root(verb: Verb, given: &[GivenWord<'_>]) -> bool
    ensures { result ≡ has_idle_root verb (seen_all given.now) }
{
    verb.has(Key::Root) && is_given(Key::Root, given) && !takes_root(kind_at(given))
}

/// Whether the kind of family does not have the size.
fn has_wrong_size(verb: Verb, given: &[GivenWord<'_>]) -> bool
    requires { AreFit (seen_all given.now) }
    ensures { result ≡ has_wrong_size verb (seen_all given.now) }
{
    let size = number_at(Key::Size, MAX_SIZE, given) as u8;
    verb.has(Key::Size) && !family_allows(family_at(given), size)
}

/// The command of what is given, where there are `count` words.
#[tactic(auto, using(crate::proofs::Found::right_fit, crate::proofs::Found::word_within, crate::proofs::Proper::proper))]
pub fn command_from(verb: Verb, given: &[GivenWord<'_>], count: u32) -> Result<Command, WordFault>
    requires { AreRight verb count (seen_all given.now) }
    ensures read { result ≡ command_from verb (seen_all given.now) count }
    ensures proper { IfOk result IsProper }
    ensures coded { IfErr result (λ fault. word_number fault.code ≤ 7) }
    ensures placed { IfErr result (λ fault. fault.word ≤ count) }
{
    if has_idle_point(verb, given) {
        return Err(blame(WordCode::UnknownKey, Key::Point, given));
    }
    if !has_required(verb, given) {
        return Err(WordFault {
            code: WordCode::KeyMissing,
            word: count,
        });
    }
    if has_idle_root(verb, given) {
        return Err(blame(WordCode::RootNotTaken, Key::Root, given));
    }
    if has_wrong_size(verb, given) {
        return Err(blame(WordCode::BadValue, Key::Size, given));
    }
    Ok(command_for(verb, given))
}
