//! The words, read from left to right.

ghost use Rattle.std.specs.Prelude.{◌≡◌, ◌+◌, ◌≤◌, ◌∷◌, false, length, IfOk, IfErr, option_map};
ghost use Rattle.text_lines.specs.Check.{Tells};
ghost use Rattle.command_words.specs.{Codes.word_number, Commands.IsProper, Given.is_given, Words.{command_of, key_and_value, texts, with_word}, inner.Seen.{IsRight, command_given, seen, seen_all}};

use crate::building::command_from;
use crate::command::Command;
use crate::fault::{WordCode, WordFault};
use crate::given::{GivenWord, is_given};
use crate::key::Key;
use crate::verb::Verb;

/// The key and the value of a word: what stands before its first `=`, and what stands behind it.
fn cut(word: &str) -> Option<(&str, &str)>
    ensures { option_map (λ parts. (parts.0.now, parts.1.now)) result ≡ key_and_value word.now }
{
    word.split_once('=')
}

/// What the word with this index gives, behind words that gave these values.
fn with_word<'a>(
    verb: Verb,
    given: &[GivenWord<'_>],
    index: u32,
    word: &'a str,
) -> Result<GivenWord<'a>, WordCode>
    ensures read { Tells (λ more. seen more ∷ seen_all given.now) result (with_word verb (seen_all given.now) index word.now) }
    ensures first { IfOk result (λ more. is_given more.key (seen_all given.now) ≡ false) }
    ensures right { IfOk result (λ more. IsRight verb index more.key (seen more)) }
    ensures coded { IfErr result (λ code. word_number code ≤ 7) }
{
    let (key, text) = cut(word).ok_or(WordCode::UnknownKey)?;
    let key = Key::of_word(key).ok_or(WordCode::UnknownKey)?;
    if !verb.has(key) {
        return Err(WordCode::UnknownKey);
    }
    if is_given(key, given) {
        return Err(WordCode::KeyTwice);
    }
    if !key.takes(text) || verb.refuses(key, text) {
        return Err(WordCode::BadValue);
    }
    Ok(GivenWord {
        key,
        text,
        word: index,
    })
}

/// The command of the words behind its name. What they give is kept with the last in front, that of
/// the word with index n at place 18 - n: there are 18 keys, and none is given twice.
fn command_given(verb: Verb, words: &[String]) -> Result<Command, WordFault>
    ensures read { result ≡ command_given verb (texts words.now) }
    ensures proper { IfOk result IsProper }
    ensures coded { IfErr result (λ fault. word_number fault.code ≤ 7) }
    ensures placed { IfErr result (λ fault. fault.word ≤ length words.now + 1) }
{
    let mut places = [GivenWord {
        key: Key::K,
        text: "",
        word: 0,
    }; 18];
    let mut first = 18;
    for word in words {
        let index = 19 - first as u32;
        match with_word(verb, &places[first..], index, word) {
            Ok(given) => {
                first -= 1;
                places[first] = given;
            }
            Err(code) => return Err(WordFault { code, word: index }),
        }
    }
    command_from(verb, &places[first..], 19 - first as u32)
}

/// The command that the words are: the first is the command's name, and every other a key, `=` and
/// a value, in any order. An `Err` has the first refusal that applies: of the first word, of the
/// other words from left to right, of a point that is named where no programs are asked for, of a
/// key that is lacking, of a size that the kind of family doesn't have, of a root that the
/// collective doesn't take. It takes no memory.
#[tactic(auto, unfolding(crate::specs::Words::command_of))]
pub fn read_words(words: &[String]) -> Result<Command, WordFault>
    ensures read { result ≡ command_of (texts words.now) }
    ensures proper { IfOk result IsProper }
    ensures coded { IfErr result (λ fault. word_number fault.code ≤ 7) }
    ensures placed { IfErr result (λ fault. fault.word ≤ length words.now) }
{
    let Some((first, rest)) = words.split_first() else {
        return Err(WordFault {
            code: WordCode::NoCommand,
            word: 0,
        });
    };
    let Some(verb) = Verb::of_word(first) else {
        return Err(WordFault {
            code: WordCode::UnknownCommand,
            word: 0,
        });
    };
    command_given(verb, rest)
}
