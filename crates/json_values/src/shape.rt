//! What values of JSON have in them, where they have a shape.

ghost use Rattle.std.specs.Prelude.{◌≡◌, false, option_map};
ghost use Rattle.serde_json.specs.{Data.{member}, Find.as_array, View.{view, items_view, members_view}};
ghost use Rattle.json_values.specs.{Shape.{count_in, name_in}, Forms.same_keys, Pieces.{due_keys, has_due_keys, says}};

use serde_json::{Map, Value};
use topology_text::Name;

/// The whole number that the value is, from 0 to 2^64 - 1. `None` comes exactly where it is none: a
/// number with a sign, a fraction or an exponent is none, whatever its value.
pub fn count_in(value: &Value) -> Option<u64>
    ensures { result ≡ count_in (view value.now) }
{
    value.as_u64()
}

/// The name of a node that the value is: a text of 1 to 16 bytes of a to z, 0 to 9 and `_`. `None`
/// comes exactly where it is none.
pub fn name_in(value: &Value) -> Option<&str>
    ensures { option_map (λ s. s.now) result ≡ name_in (view value.now) }
{
    let text = value.as_str()?;
    match Name::of_bytes(text.as_bytes()) {
        Some(_) => Some(text),
        None => None,
    }
}

/// The items of the list that the value is. `None` comes exactly where it is no list.
pub fn items_in(value: &Value) -> Option<&[Value]>
    ensures { option_map (λ s. items_view s.now) result ≡ as_array (view value.now) }
{
    match value.as_array() {
        Some(items) => Some(items.as_slice()),
        None => None,
    }
}

/// Whether the text at the key is this word.
pub fn says(value: &Value, key: &str, word: &str) -> bool
    ensures { result ≡ says key.now word.now (view value.now) }
{
    match value.get(key) {
        Some(member) => member.as_str() == Some(word),
        None => false,
    }
}

/// Whether the members have exactly those of these keys that are due.
fn are_due(keys: &[(&str, bool)], members: &Map<String, Value>) -> bool
    ensures { result ≡ same_keys (due_keys keys.now) (members_view members.now.entries) }
{
    let mut left = members.iter();
    for (key, due) in keys {
        if *due {
            let Some((name, _)) = left.next() else {
                return false;
            };
            if name.as_str() != *key {
                return false;
            }
        }
    }
    left.next().is_none()
}

/// Whether the value is an object with exactly those of these keys that are due. The keys are to be
/// given in ascending order.
pub fn has_due_keys(value: &Value, keys: &[(&str, bool)]) -> bool
    ensures { result ≡ has_due_keys keys.now (view value.now) }
{
    match value.as_object() {
        Some(members) => are_due(keys, members),
        None => false,
    }
}
