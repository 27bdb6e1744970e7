//! The words that name kinds of families.

ghost use Rattle.std.specs.Prelude.{◌≡◌};
ghost use Rattle.topology_families.specs.FamilyWords.{family_named, family_word};

use crate::family_kind::FamilyKind;

/// The kinds, in the order of their numbers.
const KINDS: [FamilyKind; 9] = [
    FamilyKind::Line,
    FamilyKind::Ring,
    FamilyKind::Complete,
    FamilyKind::Shared,
    FamilyKind::Cube,
    FamilyKind::Torus,
    FamilyKind::Mesh,
    FamilyKind::Switch,
    FamilyKind::Boxes,
];

impl FamilyKind {
    /// The name of the kind, in lower case.
    pub fn word(self) -> &'static str
        ensures { result.now ≡ family_word self }
    {
        match self {
            FamilyKind::Line => "line",
            FamilyKind::Ring => "ring",
            FamilyKind::Complete => "complete",
            FamilyKind::Shared => "shared",
            FamilyKind::Cube => "cube",
            FamilyKind::Torus => "torus",
            FamilyKind::Mesh => "mesh",
            FamilyKind::Switch => "switch",
            FamilyKind::Boxes => "boxes",
        }
    }

    /// The kind with this name; `None` exactly where no kind has it.
    pub fn of_word(word: &str) -> Option<FamilyKind>
        ensures { result ≡ family_named word.now }
    {
        KINDS.iter().copied().find(|kind| kind.word() == word)
    }
}
