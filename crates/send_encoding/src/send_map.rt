ghost use Rattle.std.specs.{Prelude.{◌≡◌, ◌↔◌, ◌+◌, ◌<◌, ◌≤◌, true, length, IsSome, IfSome, IfOk}, List.list_any};
ghost use Rattle.schedule.specs.{Links.usable_links, Placed.same_pair, Sends.IsStep};
ghost use Rattle.send_encoding.specs.Variables.{SendMapValue, IsSendMap, arrival, arrivals, sent, sends, link_number};

use crate::OutOfMemory;
use crate::link_numbers::LinkNumbers;
use cnf_formula::Lit;
use schedule::Topology;
use std::marker::Model;

/// Which variable stands for which arrival and which send: so many chunks and nodes, the usable
/// links in ascending order, and so many steps.
#[derive(Debug, Drop)]
pub struct SendMap {
    chunks: u16,
    nodes: u8,
    links: LinkNumbers,
    steps: u8,
}

impl Model for SendMap {
    ghost use Rattle.send_encoding.specs.Variables.{SendMapValue, IsSendMap};

    ghost Value = { SendMapValue };

    ghost view = { λ m. record { chunks = m.chunks; nodes = m.nodes; links = m.links; steps = m.steps } };

    ghost invariant = { λ m. IsSendMap (record { chunks = m.chunks; nodes = m.nodes; links = m.links; steps = m.steps }) };
}

impl SendMap {
    /// What stands for the arrivals and sends of so many chunks and steps.
    #[tactic(auto, using(crate::proofs::Mapped::links_make_map))]
    pub(crate) fn of(topology: &Topology, chunks: u16, steps: u8) -> Result<SendMap, OutOfMemory>
        requires few { arrivals (record { chunks = chunks; nodes = topology.now.nodes; links = usable_links topology.now; steps = steps }) + sends (record { chunks = chunks; nodes = topology.now.nodes; links = usable_links topology.now; steps = steps }) < 2097152 }
        ensures { IfOk result (λ m. m ≡ record { chunks = chunks; nodes = topology.now.nodes; links = usable_links topology.now; steps = steps }) }
    {
        let nodes = topology.nodes();
        let usable = topology.links()?;
        let links = LinkNumbers::of(usable)?;
        Ok(SendMap {
            chunks,
            nodes,
            links,
            steps,
        })
    }

    /// How many variables stand for arrivals.
    pub fn arrivals(&self) -> u32
        ensures many { result ≡ arrivals self.now }
        ensures limits { IsSendMap self.now }
    {
        self.chunks as u32 * self.nodes as u32 * (self.steps as u32 + 1)
    }

    /// The node has the chunk after the step; step 0 is the start.
    #[tactic(auto, using(crate::proofs::Within::arrival_within))]
    pub fn arrival(&self, chunk: u16, node: u8, step: u8) -> Lit
        requires chunk { chunk < self.now.chunks }
        requires node { node < self.now.nodes }
        requires step { step ≤ self.now.steps }
        ensures literal { result ≡ arrival self.now chunk node step }
        ensures within { result.var ≤ arrivals self.now + sends self.now }
        ensures limits { IsSendMap self.now }
    {
        let row = chunk as u32 * self.nodes as u32 + node as u32;
        Lit::new(1 + row * (self.steps as u32 + 1) + step as u32, true)
    }

    /// The chunk is sent over the link of this number at the step.
    #[tactic(auto, using(crate::proofs::Within::sent_within))]
    pub fn sent_over(&self, chunk: u16, number: usize, step: u8) -> Lit
        requires chunk { chunk < self.now.chunks }
        requires number { number < length self.now.links }
        requires step { IsStep self.now.steps step }
        ensures literal { result ≡ sent self.now chunk number step }
        ensures within { result.var ≤ arrivals self.now + sends self.now }
        ensures limits { IsSendMap self.now }
    {
        let row = chunk as u32 * self.links.len() as u32 + number as u32;
        Lit::new(
            self.arrivals() + 1 + row * self.steps as u32 + (step as u32 - 1),
            true,
        )
    }

    /// The chunk is sent over the link at the step; `None` exactly where the link is not usable.
    #[tactic(auto, using(crate::proofs::Everywhere::place_below, crate::proofs::Everywhere::below_listed))]
    pub fn sent(&self, chunk: u16, link: (u8, u8), step: u8) -> Option<Lit>
        requires chunk { chunk < self.now.chunks }
        requires step { IsStep self.now.steps step }
        ensures usable { IsSome result ↔ (list_any (same_pair link) self.now.links ≡ true) }
        ensures literal { IfSome result (λ lit. lit ≡ sent self.now chunk (link_number self.now link) step) }
    {
        let number = self.number(link);
        if number < self.links.len() {
            Some(self.sent_over(chunk, number, step))
        } else {
            None
        }
    }

    /// The number of chunks.
    pub fn chunks(&self) -> u16
        ensures chunks { result ≡ self.now.chunks }
        ensures limits { IsSendMap self.now }
    {
        self.chunks
    }

    /// The number of nodes.
    pub fn nodes(&self) -> u8
        ensures nodes { result ≡ self.now.nodes }
        ensures limits { IsSendMap self.now }
    {
        self.nodes
    }

    /// The usable links.
    pub fn links(&self) -> &[(u8, u8)]
        ensures links { result.now ≡ self.now.links }
        ensures limits { IsSendMap self.now }
    {
        self.links.as_slice()
    }

    /// The number of steps.
    pub fn steps(&self) -> u8
        ensures steps { result ≡ self.now.steps }
        ensures limits { IsSendMap self.now }
    {
        self.steps
    }

    /// The number of a link, or that of all where it is not usable.
    pub fn number(&self, link: (u8, u8)) -> usize
        ensures { result ≡ link_number self.now link }
    {
        self.links.number(link)
    }

    /// How many variables stand for sends.
    pub fn sends(&self) -> u32
        ensures many { result ≡ sends self.now }
        ensures limits { IsSendMap self.now }
    {
        self.chunks as u32 * self.links.len() as u32 * self.steps as u32
    }
}
