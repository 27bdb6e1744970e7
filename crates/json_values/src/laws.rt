//! Laws of values of JSON and of the texts that they stand for.

ghost use Rattle.std.specs.Prelude.{◌≡◌, ◌*◌, ◌≤◌, ℕ, List, [], ◌∷◌, ◌++◌, length, Ok, Some};
ghost use Rattle.serde_json.specs.{Data.Data, Read.read};
ghost use Rattle.topology_text.specs.{Value.{NamedTopologyValue, IsNamed}, Spelling.lines_of};
ghost use Rattle.json_values.specs.{Answer.text_of_json, Json.value_of, Size.size, TopologyJson.{topology_json, topology_in, topology_text_in}};

/// A line feed at the end does not change which value a text is.
pub fn line_feed_is_blank()
    ensures { (text : List ℕ) → read (text ++ 10 ∷ []) ≡ read text }
{}

/// The JSON of a topology stands for the topology's text.
pub fn topology_json_stands_for_its_text()
    ensures { (t : NamedTopologyValue) → IsNamed t → topology_in (topology_json t) ≡ Some (lines_of t) }
{}

/// A value has no more values in it, itself among them, than its JSON has bytes.
pub fn value_is_no_larger_than_its_bytes()
    ensures { (bytes : List ℕ) (d : Data) → value_of bytes ≡ Some d → size d ≤ length bytes }
{}

/// The text that the JSON of a topology stands for is at most 440 times as long as the JSON.
pub fn text_of_topology_json_is_short()
    ensures { (bytes text : List ℕ) → text_of_json topology_text_in bytes ≡ Ok text → length text ≤ 440 * length bytes }
{}
