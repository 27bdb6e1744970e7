//! What was written as JSON is read back.

ghost use Rattle.std.specs.Prelude.{◌≡◌, ◌≤◌, ℕ, List, None, Ok, length};
ghost use Rattle.command_words.specs.{declared.command.{Command.TheVariants.{Json, Unjson}, JsonWhat.JsonWhat}, Words.command_of};
ghost use Rattle.run_rules.specs.Tasks.{Write, due, json_asked, limit, unjson_asked};

/// What is due for the JSON of a text is that text, byte for byte; by the words, where the JSON is
/// not too long to be read.
pub fn json_is_read_back()
    ensures asked { (what : JsonWhat) (bytes text : List ℕ) → json_asked what None bytes ≡ Ok (Write text) → unjson_asked what text ≡ Ok (Write bytes) }
    ensures due { (words back : List (List ℕ)) (what : JsonWhat) → command_of words ≡ Ok (Json what None) → command_of back ≡ Ok (Unjson what)
        → (bytes text : List ℕ) → due words bytes ≡ Ok (Write text) → length text ≤ limit → due back text ≡ Ok (Write bytes) }
{}
