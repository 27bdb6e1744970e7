//! What the generator of an order draws.

ghost use Rattle.std.specs.Prelude.{◌≡◌, ◌<◌, true, length, slice_get, IfSome};
ghost use Rattle.node_programs.specs.{Machines.is_enabled, Runs.{enabled, next_draw, ranked}};

use node_programs::Machine;

/// What an order of events is drawn from.
#[derive(Clone, Copy, Debug)]
pub(crate) struct Generator {
    state: u64,
}

impl Generator {
    pub(crate) fn new(seed: u64) -> Generator
        ensures { result.state ≡ seed }
    {
        Generator { state: seed }
    }

    /// The node that moves next: the generator goes on, and draws among the nodes that are enabled,
    /// if there are any.
    pub(crate) fn next(&mut self, machine: &Machine) -> Option<u8>
        ensures state { self.new.state ≡ next_draw self.old.state }
        ensures node { result ≡ ranked (enabled machine.now) (next_draw self.old.state) }
        ensures within { IfSome result (λ node. node < machine.now.store.nodes) }
        ensures enabled { IfSome result (λ node. is_enabled machine.now node ≡ true) }
    {
        self.state = next_draw(self.state);
        ranked(machine, self.state)
    }
}

/// The next state of the generator, a linear congruence modulo 2^64 (with the numbers of Knuth's
/// MMIX).
pub(crate) fn next_draw(state: u64) -> u64
    ensures { result ≡ next_draw state }
{
    state
        .wrapping_mul(6364136223846793005)
        .wrapping_add(1442695040888963407)
}

/// The node that a state of the generator draws among those that are enabled, if there is one. The
/// low bits, which are the least random, draw nothing.
fn ranked(machine: &Machine, state: u64) -> Option<u8>
    ensures node { result ≡ ranked (enabled machine.now) state }
    ensures within { IfSome result (λ node. node < machine.now.store.nodes) }
    ensures enabled { IfSome result (λ node. is_enabled machine.now node ≡ true) }
{
    let count = count_enabled(machine);
    if count == 0 {
        return None;
    }
    enabled_at(machine, (state >> 33) % count)
}

/// How many nodes are enabled.
fn count_enabled(machine: &Machine) -> u64
    ensures { result ≡ length (enabled machine.now) }
{
    let mut count: u64 = 0;
    for node in 0..machine.nodes() {
        if machine.enabled(node) {
            count += 1;
        }
    }
    count
}

/// The enabled node of this rank, nodes ascending and ranks from 0.
fn enabled_at(machine: &Machine, rank: u64) -> Option<u8>
    ensures node { result ≡ slice_get (enabled machine.now) rank }
    ensures within { IfSome result (λ node. node < machine.now.store.nodes) }
    ensures enabled { IfSome result (λ node. is_enabled machine.now node ≡ true) }
{
    let mut before = rank;
    for node in 0..machine.nodes() {
        if machine.enabled(node) {
            if before == 0 {
                return Some(node);
            }
            before -= 1;
        }
    }
    None
}
