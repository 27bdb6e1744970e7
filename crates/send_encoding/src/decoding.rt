//! The sends that an assignment says.

ghost use Rattle.std.specs.Prelude.{◌≡◌, ◌+◌, ◌≤◌, length, IfOk};
ghost use Rattle.send_encoding.specs.{Variables.{arrivals, sends}, Sent.sends_of};

use crate::OutOfMemory;
use crate::send_map::SendMap;
use cnf_formula::Assignment;
use schedule::Hop;
use std::alloc::Global;

/// The sends that are true, by step, chunk and link.
#[tactic(auto, using(cnf_formula::proofs::Growing::appends_more, crate::proofs::Picking::appends_after))]
pub fn sends_of(
    alloc: Global,
    map: &SendMap,
    assignment: &Assignment,
) -> Result<Vec<Hop>, OutOfMemory>
    requires vars { arrivals map.now + sends map.now ≤ length assignment.now }
    ensures { IfOk result (λ v. v.items ≡ sends_of map.now assignment.now) }
{
    let mut hops = Vec::new(alloc);
    for index in 0..map.steps() {
        for chunk in 0..map.chunks() {
            for (number, link) in map.links().iter().enumerate() {
                let (from, to) = *link;
                if map
                    .sent_over(chunk, number, index + 1)
                    .is_true(&assignment.values)
                {
                    hops.push(Hop {
                        chunk,
                        from,
                        to,
                        step: index + 1,
                    })?;
                }
            }
        }
    }
    Ok(hops)
}
