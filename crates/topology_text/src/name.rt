//! Names of nodes.

ghost use Rattle.std.{specs.{Prelude.{◌≡◌, IsTrue, ◌==◌, bytes_eq}, Cmp.{partial_equiv_from_equiv, Lexicographic.{bytes_decides, nat_list_eq_equiv}}}, proofs.Common.ap};
ghost use Rattle.std.specs.Hash as fed;
ghost use Rattle.topology_text.specs.Names.{is_name_byte, is_name, name_of};

use indexmap::Equivalent;
use std::hash::{Hash, Hasher};
use std::marker::Model;

/// A name: 1 to 16 bytes of a to z, 0 to 9 and `_`.
#[derive(Clone, Copy, Debug)]
pub struct Name {
    places: [u8; 16],
    len: usize,
}

impl Model for Name {
    ghost use Rattle.std.specs.Prelude.{List, ℕ, length, take};
    ghost use Rattle.topology_text.specs.Names.{padded, IsKept};

    ghost Value = { List ℕ };

    ghost view = { λ n. take n.len n.places };

    ghost invariant = { λ n. IsKept n.places n.len };

    ghost inverse = { λ v. record { places = padded v; len = length v } };

    ghost inverse_ok = { λ n kept i. record { places = kept.places i; len = kept.len i } };
}

impl PartialEq for Name {
    ghost eq = { bytes_eq };

    ghost laws = { partial_equiv_from_equiv nat_list_eq_equiv };

    fn eq(&self, other: &Name) -> bool {
        self.as_bytes() == other.as_bytes()
    }
}

impl Eq for Name {
    ghost laws = { nat_list_eq_equiv };
}

impl Hash for Name {
    ghost hash_input = { fed.slice fed.u8 };

    ghost respects_eq = { λ x y same. ap (fed.slice fed.u8) ((bytes_decides x y).0 same) };

    fn hash<H: Hasher>(&self, state: &mut H) {
        self.as_bytes().hash(state);
    }
}

/// Names are looked up by their bytes.
impl Equivalent<Name> for &[u8] {
    ghost equivalent = { λ bytes. bytes_eq bytes.now };

    ghost respects_hash = { λ bytes name same. ap (fed.slice fed.u8) ((bytes_decides bytes.now name).0 same) };

    ghost respects_eq = { λ bytes x y. nat_list_eq_equiv.congr bytes.now x y };

    fn equivalent(&self, key: &Name) -> bool {
        *self == key.as_bytes()
    }
}

fn is_name_byte(byte: u8) -> bool
    ensures { result ≡ is_name_byte byte }
{
    matches!(byte, b'a'..=b'z' | b'0'..=b'9' | b'_')
}

fn is_name(bytes: &[u8]) -> bool
    ensures { result ≡ is_name bytes.now }
{
    if bytes.is_empty() || bytes.len() > 16 {
        return false;
    }
    for byte in bytes {
        if !is_name_byte(*byte) {
            return false;
        }
    }
    true
}

impl Name {
    /// The name of these bytes. `None` comes exactly where they are not 1 to 16 bytes of a to z, 0
    /// to 9 and `_`.
    pub fn of_bytes(bytes: &[u8]) -> Option<Name>
        ensures { result ≡ name_of bytes.now }
    {
        if !is_name(bytes) {
            return None;
        }
        let mut places = [0; 16];
        places[..bytes.len()].copy_from_slice(bytes);
        Some(Name {
            places,
            len: bytes.len(),
        })
    }

    /// The bytes of the name.
    pub fn as_bytes(&self) -> &[u8]
        ensures bytes { result.now ≡ self.now }
        ensures name { IsTrue (is_name self.now) }
    {
        &self.places[..self.len]
    }
}
