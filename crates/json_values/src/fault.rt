//! Why JSON is refused, and where.

ghost use Rattle.std.specs.Prelude.{◌≡◌};
ghost use Rattle.json_values.specs.Answer.{json_number};

/// Why bytes are not the JSON of a value, or were not read.
#[derive(Clone, Copy, PartialEq, Eq)]
pub enum JsonCode {
    /// The bytes are no JSON (RFC 8259) in UTF-8, or nest deeper than 127.
    NotJson,
    /// The JSON does not have the form of such a value.
    BadShape,
    /// The text that the JSON stands for is refused.
    BadText,
    /// Memory ran out, and nothing is said of the bytes.
    OutOfMemory,
}

impl JsonCode {
    /// The number by which a refusal names the code, from 1 to 4 in the order of the variants.
    pub fn number(self) -> u32
        ensures { result ≡ json_number self }
    {
        match self {
            JsonCode::NotJson => 1,
            JsonCode::BadShape => 2,
            JsonCode::BadText => 3,
            JsonCode::OutOfMemory => 4,
        }
    }
}

/// The first check that failed. With `BadText` the place is the line, from 1, at which the text is
/// refused that the JSON stands for; with the other codes it is 0.
#[derive(Clone, Copy, PartialEq, Eq)]
pub struct JsonFault {
    pub code: JsonCode,
    pub place: u32,
}
