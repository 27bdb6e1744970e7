//! Whether a schedule wastes a send.

ghost use Rattle.std.specs.{Prelude.{◌≡◌, ◌-◌, true, false, All, AllPairs, Decides, IfOk}, List.list_all};
ghost use Rattle.schedule.specs.{Placed.{empty_placement, same_pair}, Sends.{IsInRange, is_hop_below}, Running.after, Solving.{Tight, moves}};

use crate::OutOfMemory;
use crate::hop::Hop;
use crate::placement::Placement;
use crate::run::run_steps;
use crate::schedule::Schedule;
use std::alloc::Global;

/// Whether no send is wasted: each sender has the chunk before its step, and each receiver lacks it
/// then and is sent it once. The only error is `OutOfMemory`.
#[tactic(auto, using(crate::proofs::Wasting::tight_decided))]
pub fn is_tight(alloc: Global, pre: &Placement, schedule: &Schedule) -> Result<bool, OutOfMemory>
    requires { IsInRange pre.now.chunks pre.now.nodes schedule.now }
    ensures { IfOk result (λ tight. Decides tight (Tight pre.now schedule.now)) }
{
    let moves = all_move(alloc, pre, schedule)?;
    let received = Placement::empty(alloc, pre.chunks(), pre.nodes())?;
    Ok(moves && received_once(received, schedule.sends()))
}

/// Whether each sender has the chunk before its step, and each receiver lacks it then.
fn all_move(alloc: Global, pre: &Placement, schedule: &Schedule) -> Result<bool, OutOfMemory>
    requires { IsInRange pre.now.chunks pre.now.nodes schedule.now }
    ensures { IfOk result (λ all. all ≡ list_all (λ h. moves (after pre.now schedule.now (h.step - 1)) h) schedule.now.sends) }
{
    let run = run_steps(alloc, pre, schedule)?;
    for hop in schedule.sends() {
        if !moves(&run[hop.step as usize - 1], hop) {
            return Ok(false);
        }
    }
    Ok(true)
}

/// Whether the sender has the chunk and the receiver lacks it.
fn moves(before: &Placement, hop: &Hop) -> bool
    requires { is_hop_below before.now.chunks before.now.nodes hop.now ≡ true }
    ensures { result ≡ moves before.now hop.now }
{
    before.holds(hop.chunk, hop.from) && !before.holds(hop.chunk, hop.to)
}

/// Whether no node is sent a chunk twice, where nothing is received yet.
fn received_once(received: Placement, sends: &[Hop]) -> bool
    requires none { received ≡ empty_placement received.chunks received.nodes }
    requires range { All (λ h. is_hop_below received.chunks received.nodes h ≡ true) sends.now }
    ensures { Decides result (AllPairs (λ a b. same_pair (a.chunk, a.to) (b.chunk, b.to) ≡ false) sends.now) }
{
    let mut received = received;
    for hop in sends {
        if received.holds(hop.chunk, hop.to) {
            return false;
        }
        received.insert(hop.chunk, hop.to);
    }
    true
}
