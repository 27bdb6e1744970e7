//! A table, and its two look-ups.

ghost use Rattle.std.specs.{Prelude.{◌≡◌, ◌≢◌, ◌==◌, IsTrue, IfSome, IfNone, Some, All, Contains, bytes_eq, find}, Option.{option_copied, option_map}};
ghost use Rattle.case_table.specs.{Rows.{is_one_to_one, value_at, word_at}, Shown.entries};

use crate::row::Row;
use std::marker::Model;

/// Rows that give each word one number, and each number one word.
#[derive(Drop)]
pub struct Table {
    rows: &'static [Row],
}

impl Model for Table {
    ghost use Rattle.std.specs.Prelude.{ℕ, List, IsTrue};
    ghost use Rattle.case_table.specs.{Rows.is_one_to_one, Shown.entries};

    ghost Value = { List (List ℕ × ℕ) };

    ghost view = { λ t. entries t.rows.now };

    ghost invariant = { λ t. IsTrue (is_one_to_one (entries t.rows.now)) };
}

impl Table {
    /// The table of these rows, whose words differ and whose numbers differ.
    pub fn new(rows: &'static [Row]) -> Table
        requires { IsTrue (is_one_to_one (entries rows.now)) }
        ensures { result ≡ entries rows.now }
    {
        Table { rows }
    }

    /// The number of the row with that word. `None` comes exactly where no row has it.
    pub fn find(&self, word: &str) -> Option<u32>
        ensures value { result ≡ value_at self.now word.now }
        ensures some { IfSome result (λ value. Contains self.now (word.now, value)) }
        ensures none { IfNone result (All (λ row. row.0 ≢ word.now) self.now) }
        ensures undone { IfSome result (λ value. word_at self.now value ≡ Some word.now) }
    {
        value_in(self.rows, word)
    }

    /// The word of the row with that number. `None` comes exactly where no row has it.
    pub fn word_of(&self, value: u32) -> Option<&'static str>
        ensures word { option_copied result ≡ word_at self.now value }
        ensures some { IfSome result (λ word. Contains self.now (word.now, value)) }
        ensures none { IfNone result (All (λ row. row.1 ≢ value) self.now) }
        ensures undone { IfSome result (λ word. value_at self.now word.now ≡ Some value) }
    {
        word_in(self.rows, value)
    }
}

/// A table of the rows, each written as `"word" => number`. That words and numbers differ is proved
/// where it stands.
#[macro_export]
macro_rules! table {
    ($($word:literal => $value:literal),+ $(,)?) => {
        $crate::Table::new(&[$($crate::Row { word: $word, value: $value }),+])
    };
}

fn value_in(rows: &[Row], word: &str) -> Option<u32>
    ensures { result ≡ option_map (λ row. row.value) (find (λ row. bytes_eq row.word.now word.now) rows.now) }
{
    rows.iter()
        .find(|row| row.word == word)
        .map(|row| row.value)
}

fn word_in(rows: &[Row], value: u32) -> Option<&'static str>
    ensures { result ≡ option_map (λ row. row.word) (find (λ row. row.value == value) rows.now) }
{
    rows.iter()
        .find(|row| row.value == value)
        .map(|row| row.word)
}
