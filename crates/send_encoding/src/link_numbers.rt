//! The numbers of the usable links.

ghost use Rattle.std.specs.{Prelude.{◌≡◌, length, IfOk}, List.position_or_len};
ghost use Rattle.schedule.specs.Placed.{same_pair};

use crate::OutOfMemory;
use std::marker::Model;

/// Nodes of a topology are below this.
const NODES: u8 = 16;

/// Links, each with its number in a table, so that none is looked up in the list.
#[derive(Debug, Drop)]
pub(crate) struct LinkNumbers {
    links: Vec<(u8, u8)>,
    numbers: Vec<usize>,
}

impl Model for LinkNumbers {
    ghost use Rattle.std.specs.Prelude.{◌≡◌, ℕ, List};
    ghost use Rattle.send_encoding.specs.Variables.{numbers_among};

    ghost Value = { List (ℕ × ℕ) };

    ghost view = { λ n. n.links.items };

    ghost invariant = { λ n. n.numbers.items ≡ numbers_among n.links.items };
}

impl LinkNumbers {
    /// The numbers of these links.
    #[tactic(auto, using(cnf_formula::proofs::Growing::pushes_more))]
    pub(crate) fn of(links: Vec<(u8, u8)>) -> Result<LinkNumbers, OutOfMemory>
        ensures { IfOk result (λ n. n ≡ links.items) }
    {
        let mut numbers = Vec::new(*links.allocator());
        for place in 0..256_u16 {
            let link = ((place / 16) as u8, (place % 16) as u8);
            numbers.push(place_in(&links, link))?;
        }
        Ok(LinkNumbers { links, numbers })
    }

    /// The links, in their order.
    pub(crate) fn as_slice(&self) -> &[(u8, u8)]
        ensures { result.now ≡ self.now }
    {
        &self.links
    }

    /// How many there are.
    pub(crate) fn len(&self) -> usize
        ensures { result ≡ length self.now }
    {
        self.links.len()
    }

    /// The number of a link, or that of all where it is not one of them.
    #[tactic(auto, using(crate::proofs::Places::numbered))]
    pub(crate) fn number(&self, link: (u8, u8)) -> usize
        ensures { result ≡ position_or_len (same_pair link) self.now }
    {
        let (from, to) = link;
        if from < NODES && to < NODES {
            self.numbers[from as usize * 16 + to as usize]
        } else {
            place_in(&self.links, link)
        }
    }
}

/// The place of a link in a list, or the length of the list.
fn place_in(links: &[(u8, u8)], link: (u8, u8)) -> usize
    ensures { result ≡ position_or_len (same_pair link) links.now }
{
    for (number, other) in links.iter().enumerate() {
        if link.0 == other.0 && link.1 == other.1 {
            return number;
        }
    }
    links.len()
}
