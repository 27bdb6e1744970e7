//! What a part of a report answers.

ghost use Rattle.std.specs.Prelude.{◌≡◌, ◌<◌, ◌*◌};
ghost use Rattle.collective_spec.specs.Collectives.{chunks_in, kind_in};
ghost use Rattle.report_lines.specs.Asking.{asks};

use candidate_order::Limits;
use collective_spec::{Kind, chunks_of};
use outer_ports::Part;
use report_form::{Words, kind_of_part};
use topology_text::NamedTopology;

/// A part of what the words ask on a topology.
#[derive(Clone, Copy)]
pub struct Question<'a> {
    pub words: Words,
    pub topology: &'a NamedTopology,
    pub part: Part,
}

impl Question<'_> {
    /// How far the search goes.
    pub fn limits(&self) -> Limits
        ensures { result ≡ (asks self.now).limits }
    {
        self.words.limits()
    }

    /// The number of nodes.
    pub fn nodes(&self) -> u8
        ensures { result ≡ (asks self.now).topology.nodes }
    {
        self.topology.topology().nodes()
    }

    /// The collective of the part.
    pub fn kind(&self) -> Kind
        ensures { result ≡ kind_in (asks self.now).spec }
    {
        match self.topology.custom() {
            None => kind_of_part(self.words.collective().kind, self.part),
            Some(_) => Kind::Custom,
        }
    }

    /// The number of all chunks at the chunk count `c`.
    pub fn chunks(&self, c: u8) -> u16
        ensures { result ≡ chunks_in (asks self.now).spec (asks self.now).topology.nodes c }
    {
        match self.topology.custom() {
            None => chunks_of(
                kind_of_part(self.words.collective().kind, self.part),
                self.nodes(),
                c,
            ),
            Some(pattern) => u16::from(pattern.base()) * u16::from(c),
        }
    }
}
