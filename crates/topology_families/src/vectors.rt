//! What families are.

ghost use Rattle.std.specs.{Prelude.{◌≡◌, [], ◌∷◌, filter}, List.range_with_len};
ghost use Rattle.topology_text.specs.Spelling.{spelling};
ghost use Rattle.topology_families.specs.{Family.{family_of, is_allowed}, Rows.{boxes_of_8, mesh_of_8, switch_of_3, torus_of_9}};

use crate::family_kind::FamilyKind;

/// The texts of four families.
pub fn families_are()
    ensures torus { spelling (family_of FamilyKind.Torus 9) ≡ torus_of_9 }
    ensures mesh { spelling (family_of FamilyKind.Mesh 8) ≡ mesh_of_8 }
    ensures switch { spelling (family_of FamilyKind.Switch 3) ≡ switch_of_3 }
    ensures boxes { spelling (family_of FamilyKind.Boxes 8) ≡ boxes_of_8 }
{}

/// The sizes of kinds that have few.
pub fn family_sizes_are()
    ensures cube { filter (is_allowed FamilyKind.Cube) (range_with_len 0 256) ≡ 2 ∷ 4 ∷ 8 ∷ 16 ∷ [] }
    ensures torus { filter (is_allowed FamilyKind.Torus) (range_with_len 0 256) ≡ 9 ∷ 12 ∷ 16 ∷ [] }
    ensures mesh { filter (is_allowed FamilyKind.Mesh) (range_with_len 0 256) ≡ 8 ∷ [] }
    ensures switch { filter (is_allowed FamilyKind.Switch) (range_with_len 0 256) ≡ range_with_len 2 15 }
    ensures boxes { filter (is_allowed FamilyKind.Boxes) (range_with_len 0 256) ≡ 8 ∷ 12 ∷ 16 ∷ [] }
{}
