//! The groups that cover the links into a set of nodes, of which each covers the most for its width.

ghost use Rattle.std.specs.{Prelude.{◌≡◌, ◌<◌, ◌⊎◌, ℕ, List, filter, length, All, Option, None, Some, IfOk}, Option.option_map};
ghost use Rattle.schedule.specs.{Links.TopologyValue, Tables.Marks, Judging.group_at};
ghost use Rattle.node_cuts.specs.{Sides.NodeSet, Cuts.{all_groups, ascending, best_of, better, cover_greedily, enters}, Opened.{MarksNumbers, MarksOpen, RemovesGroups, choice_of, is_alone, is_open}};

use crate::OutOfMemory;
use crate::covering::{all_groups, group_at};
use crate::open_links::OpenLinks;
use schedule::Topology;
use std::alloc::Global;

/// A group, how many links it opens, and its width.
#[derive(Clone, Copy)]
pub(crate) struct Choice {
    group: u16,
    opened: u64,
    width: u8,
}

/// The group with what it opens.
fn choice_of(topology: &Topology, uncovered: &OpenLinks, group: u16) -> Choice
    requires { group < length topology.now.groups }
    ensures choice { (u : NodeSet) (taken : List ℕ) → MarksOpen uncovered.now.cells u topology.now taken → result ≡ choice_of u topology.now taken group }
    ensures group { result.group ≡ group }
{
    let of_number = group_at(topology, group);
    Choice {
        group,
        opened: uncovered.count(of_number.links()),
        width: of_number.width(),
    }
}

/// The better of the best group so far and the next, which has to open some link.
fn better(best: Option<Choice>, next: Choice) -> Option<Choice>
    ensures better { (u : NodeSet) (t : TopologyValue) (taken : List ℕ) (first : Option ℕ) (second : ℕ) → best ≡ option_map (choice_of u t taken) first → next ≡ choice_of u t taken second
        → result ≡ option_map (choice_of u t taken) (better u t taken first second) }
    ensures either { (result ≡ best) ⊎ (result ≡ Some next) }
{
    match best {
        None => { if next.opened > 0 { Some(next) } else { None } }
        Some(choice) => {
            if u128::from(next.opened) * u128::from(choice.width)
                > u128::from(choice.opened) * u128::from(next.width)
            {
                Some(next)
            } else {
                Some(choice)
            }
        }
    }
}

/// The best of these groups, if one opens a link.
fn best_of(topology: &Topology, uncovered: &OpenLinks, numbers: &[u16]) -> Option<u16>
    requires { All (λ group. group < length topology.now.groups) numbers.now }
    ensures best { (u : NodeSet) (taken : List ℕ) → MarksOpen uncovered.now.cells u topology.now taken → result ≡ best_of u topology.now taken None numbers.now }
    ensures within { (best : ℕ) → result ≡ Some best → best < length topology.now.groups }
{
    let mut best: Option<Choice> = None;
    for number in numbers {
        best = better(best, choice_of(topology, uncovered, *number));
    }
    match best {
        None => None,
        Some(choice) => Some(choice.group),
    }
}

/// Those of these groups that open a link.
fn still_open(
    alloc: Global,
    topology: &Topology,
    uncovered: &OpenLinks,
    numbers: &[u16],
) -> Result<Vec<u16>, OutOfMemory>
    requires { All (λ group. group < length topology.now.groups) numbers.now }
    ensures { IfOk result (λ left. left.items ≡ filter (λ group. is_open uncovered.now.cells (group_at topology.now group)) numbers.now) }
{
    let mut left = Vec::with_capacity(alloc, numbers.len())?;
    for number in numbers {
        if uncovered.any(group_at(topology, *number).links()) {
            left.push(*number)?;
        }
    }
    Ok(left)
}

/// A cell for each number below 256: whether it is one of these.
fn cells_of(numbers: &[u16]) -> [bool; 256]
    requires { All (λ number. number < 256) numbers.now }
    ensures { MarksNumbers result numbers.now }
{
    let mut cells = [false; 256];
    for number in numbers {
        cells[*number as usize] = true;
    }
    cells
}

/// These groups, ascending.
fn ascending(alloc: Global, topology: &Topology, numbers: &[u16]) -> Result<Vec<u16>, OutOfMemory>
    requires { All (λ group. group < length topology.now.groups) numbers.now }
    ensures { IfOk result (λ groups. groups.items ≡ ascending topology.now numbers.now) }
{
    let all = topology.groups().len() as u16;
    let cells = cells_of(numbers);
    let mut groups = Vec::with_capacity(alloc, numbers.len())?;
    for number in 0..all {
        if cells[number as usize] {
            groups.push(number)?;
        }
    }
    Ok(groups)
}

/// Takes the links of these groups away.
fn remove_groups(topology: &Topology, uncovered: &mut OpenLinks, numbers: &[u16])
    requires { All (λ group. group < length topology.now.groups) numbers.now }
    ensures { RemovesGroups uncovered.old.cells uncovered.new.cells topology.now numbers.now }
{
    for number in numbers {
        uncovered.remove(group_at(topology, *number).links());
    }
}

/// The numbers of the groups that cover the links into a set, taken one by one, each time the one
/// that covers the most links for its width. Those that share no link with another are taken at
/// once, since their turn makes no difference.
pub(crate) fn cover_greedily(
    alloc: Global,
    into: OpenLinks,
    topology: &Topology,
    alone: &[u16],
) -> Result<Vec<u16>, OutOfMemory>
    requires { alone.now ≡ filter (is_alone topology.now) (all_groups topology.now) }
    ensures { IfOk result (λ groups. (u : NodeSet) → Marks into.cells (enters u) → groups.items ≡ cover_greedily u topology.now) }
{
    let all = all_groups(alloc, topology)?;
    let mut uncovered = into;
    let mut taken = still_open(alloc, topology, &uncovered, alone)?;
    remove_groups(topology, &mut uncovered, &taken);
    let mut left = still_open(alloc, topology, &uncovered, &all)?;
    let first = taken.len();
    for turn in first..topology.groups().len() {
        match best_of(topology, &uncovered, &left) {
            None => return ascending(alloc, topology, &taken),
            Some(best) => {
                taken.push(best)?;
                uncovered.remove(group_at(topology, best).links());
                left = still_open(alloc, topology, &uncovered, &left)?;
            }
        }
    }
    Ok(all)
}
