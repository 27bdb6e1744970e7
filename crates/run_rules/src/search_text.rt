//! What a search is asked for, and whether it is to be done: the checks of its text, its pattern,
//! its root and its size.

ghost use Rattle.std.specs.Prelude.{◌≡◌, ◌≢◌, ◌<◌, ◌≤◌, length, true, IfErr, IfOk, Ok, Err};
ghost use Rattle.collective_spec.specs.Collectives.{fits_kind};
ghost use Rattle.command_words.specs.Commands.{AreSearchWords};
ghost use Rattle.topology_text.specs.{Answer.topology_number, Reading.node_of};
ghost use Rattle.report_form.specs.Reports.{IsWords};
ghost use Rattle.run_rules.specs.{Answers.Says, Read.IsSearchAs, Refusals.{refusal_line, refused_at, refused_word}, Tasks.{limit, root_in, search_asked}, Steps.{search_for, search_over}};

use crate::OutOfMemory;
use crate::answer::{Answer, refusal, refused_word};
use crate::searchable::search_refusal;
use crate::status::Status;
use collective_spec::{Collective, Kind, is_custom};
use command_words::{RootWord, SearchWords, WordCode};
use report_form::Words;
use std::alloc::Global;
use topology_text::{Name, NamedTopology, TopologyCode, TopologyFault, read_topology};

/// A search that is to be done.
#[derive(Drop)]
pub struct Search {
    pub words: Words,
    pub topology: NamedTopology,
}

/// The search that words and a text ask for, or the answer that refuses it.
#[derive(Drop)]
pub enum SearchText {
    Asked(Search),
    Refused(Answer),
}

/// Whether a topology with a pattern comes with the kind of given pairs, and only with it.
fn fits(kind: Kind, topology: &NamedTopology) -> bool
    ensures { result ≡ fits_kind kind topology.now.custom }
{
    match topology.custom() {
        None => !is_custom(kind),
        Some(_) => is_custom(kind),
    }
}

/// The number of the node with this name.
fn node_of(names: &[Name], name: Name) -> Option<usize>
    ensures { result ≡ node_of names.now name }
{
    names.iter().position(|other| name == *other)
}

/// The node that the word names, or the first where there is no word. An `Err` has the index of a
/// word that names none.
fn root_of(names: &[Name], root: Option<RootWord>) -> Result<u8, u32>
    requires some { 1 ≤ length names.now }
    requires few { length names.now ≤ 16 }
    ensures node { IfOk result (λ node. root_in names.now root ≡ Ok node) }
    ensures below { IfOk result (λ node. node < length names.now) }
    ensures none { IfErr result (λ word. root_in names.now root ≡ Err (refused_word WordCode.UnknownRoot word)) }
{
    let Some(root) = root else {
        return Ok(0);
    };
    match node_of(names, root.name) {
        Some(node) => Ok(node as u8),
        None => Err(root.word),
    }
}

/// The search of these words over the topology, where it is small enough and has a candidate.
fn search_for(
    alloc: Global,
    words: Words,
    topology: NamedTopology,
) -> Result<SearchText, OutOfMemory>
    requires words { IsWords (length topology.names) words }
    requires fits { fits_kind words.collective.kind topology.custom ≡ true }
    ensures { IfOk result (IsSearchAs (search_for words topology)) }
{
    match search_refusal(alloc, words, &topology)? {
        Some(answer) => Ok(SearchText::Refused(answer)),
        None => Ok(SearchText::Asked(Search { words, topology })),
    }
}

/// The words of the search over the topology, where those that are asked for fit it. An `Err` has
/// the code and the index of the word that does not.
fn words_over(asked: SearchWords, topology: &NamedTopology) -> Result<Words, (WordCode, u32)>
    requires proper { AreSearchWords asked }
    ensures words { IfOk result (λ words. search_over asked topology.now ≡ search_for words topology.now) }
    ensures proper { IfOk result (IsWords (length topology.now.names)) }
    ensures fits { IfOk result (λ words. fits_kind words.collective.kind topology.now.custom ≡ true) }
    ensures refused { IfErr result (λ why. search_over asked topology.now ≡ Err (refused_word why.0 why.1)) }
{
    if !fits(asked.kind, topology) {
        return Err((WordCode::CustomMismatch, asked.kind_word));
    }
    match root_of(topology.names(), asked.root) {
        Ok(root) => {
            let collective = Collective {
                kind: asked.kind,
                root,
            };
            Ok(Words::new(collective, asked.limits))
        }
        Err(word) => Err((WordCode::UnknownRoot, word)),
    }
}

/// The search over the topology, where the words fit it.
fn search_over(
    alloc: Global,
    asked: SearchWords,
    topology: NamedTopology,
) -> Result<SearchText, OutOfMemory>
    requires proper { AreSearchWords asked }
    ensures { IfOk result (IsSearchAs (search_over asked topology)) }
{
    match words_over(asked, &topology) {
        Ok(words) => search_for(alloc, words, topology),
        Err((code, word)) => Ok(SearchText::Refused(refused_word(alloc, code, word)?)),
    }
}

/// The refusal of a text that is no topology.
pub fn bad_topology(alloc: Global, fault: TopologyFault) -> Result<Answer, OutOfMemory>
    ensures code { IfOk result (λ _. fault.code ≢ TopologyCode.OutOfMemory) }
    ensures says { IfOk result (λ a. Says Status.BadTopology (refusal_line (refused_at Status.BadTopology (topology_number fault.code) fault.line)) a.status a.text.items) }
{
    match fault.code {
        TopologyCode::OutOfMemory => Err(OutOfMemory),
        code => refusal(
            alloc,
            Status::BadTopology,
            u64::from(code.number()),
            u64::from(fault.line),
        ),
    }
}

/// The search that the words ask for over a text that came whole, or the answer that refuses it.
pub fn search_of_text(
    alloc: Global,
    asked: SearchWords,
    bytes: &[u8],
) -> Result<SearchText, OutOfMemory>
    requires short { length bytes.now ≤ limit }
    requires proper { AreSearchWords asked }
    ensures { IfOk result (IsSearchAs (search_asked asked bytes.now)) }
{
    match read_topology(alloc, bytes) {
        Ok(topology) => search_over(alloc, asked, topology),
        Err(fault) => Ok(SearchText::Refused(bad_topology(alloc, fault)?)),
    }
}
