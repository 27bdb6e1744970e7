//! A report as JSON.

ghost use Rattle.std.specs.Prelude.{◌≡◌, ℕ, List, [], Ok, Some, None, codes, map, if◌then◌else◌, option_map, unwrap_or, slice_index_or, IfOk, OnOk};
ghost use Rattle.report_form.specs.{Reports.IsReport, Spelling.{mark_words, part_words}};
ghost use Rattle.serde_json.specs.{Data.{Data, put, string}, View.{view, members_view}};
ghost use Rattle.json_values.specs.Json.{printed, array_of, count_of};
ghost use Rattle.json_rules.specs.{ReportForm.{adding_in, send as send_form, point as point_form, frontier as frontier_form, words as words_form}, ReportJson.report_json, Answer.report_of_json};
ghost use Rattle.json_reports.specs.Candidates.{refuted as refuted_form, unknown as unknown_form};

use candidate_order::{Candidate, Frontier, Mark, Point, Unknown};
use collective_spec::takes_root;
use json_values::{node_text, topology_value};
use outer_ports::Part;
use report_form::{Report, Words};
use schedule::Hop;
use serde_json::{Map, Value, json, put};
use std::alloc::{AllocError, Global};
use topology_text::Name;

/// What a report's JSON has lists of.
trait Listed {
    /// The JSON of a value, by the names of the nodes.
    ghost json: { List (List ℕ) → Self → Data };

    fn value(&self, alloc: Global, names: &[Name]) -> Result<Value, AllocError>
        ensures { IfOk result (λ v. view v ≡ json names.now self.now) };
}

/// The array of the values of a list.
fn list_json<T: Listed>(alloc: Global, names: &[Name], list: &[T]) -> Result<Value, AllocError>
    ensures { IfOk result (λ v. view v ≡ array_of (map (T.json names.now) list.now)) }
{
    let mut values = Vec::new(alloc);
    for x in list {
        values.push(x.value(alloc, names)?)?;
    }
    Ok(Value::Array(values))
}

impl Listed for u32 {
    ghost json = { λ _. count_of };

    fn value(&self, _alloc: Global, _names: &[Name]) -> Result<Value, AllocError> {
        Ok(Value::from(*self))
    }
}

impl Listed for Candidate {
    ghost json = { λ _. refuted_form.json };

    fn value(&self, alloc: Global, names: &[Name]) -> Result<Value, AllocError> {
        list_json(alloc, names, &[self.s, self.r, self.c])
    }
}

impl Listed for Unknown {
    ghost json = { λ _. unknown_form.json };

    fn value(&self, alloc: Global, names: &[Name]) -> Result<Value, AllocError> {
        let x = self.candidate();
        let counts = [x.s.into(), x.r.into(), x.c.into(), self.conflicts()];
        list_json(alloc, names, &counts)
    }
}

impl Listed for Hop {
    ghost json = { λ names. (send_form names).json };

    fn value(&self, alloc: Global, names: &[Name]) -> Result<Value, AllocError> {
        let from = node_text(names, self.from);
        let to = node_text(names, self.to);
        json!(in alloc; [self.chunk, from, to, self.step])
    }
}

impl Listed for u8 {
    ghost json = { λ _. count_of };

    fn value(&self, _alloc: Global, _names: &[Name]) -> Result<Value, AllocError> {
        Ok(Value::from(*self))
    }
}

fn mark_text(mark: Mark) -> &'static str
    ensures { result.now ≡ slice_index_or (mark_words mark) 0 [] }
{
    match mark {
        Mark::Optimal => "optimal",
        Mark::Open => "open",
        Mark::Joined { .. } => "joined",
    }
}

/// Puts the array of the values of a list in under the key.
fn put_list<T: Listed>(
    members: &mut Map<String, Value>,
    alloc: Global,
    names: &[Name],
    key: &str,
    list: &[T],
) -> Result<(), AllocError>
    ensures { OnOk result (members_view members.new.entries ≡ put key.now (array_of (map (T.json names.now) list.now)) (members_view members.old.entries)) }
{
    put(members, alloc, key, list_json(alloc, names, list)?)
}

/// Puts the text in under the key.
fn put_text(
    members: &mut Map<String, Value>,
    alloc: Global,
    key: &str,
    text: &str,
) -> Result<(), AllocError>
    ensures { OnOk result (members_view members.new.entries ≡ put key.now (string text.now) (members_view members.old.entries)) }
{
    put(members, alloc, key, Value::try_from_str(alloc, text)?)
}

/// Puts in how many steps a joined point adds.
fn put_adding(members: &mut Map<String, Value>, alloc: Global, mark: Mark) -> Result<(), AllocError>
    ensures { OnOk result (members_view members.new.entries ≡ unwrap_or (option_map (λ n. put (codes "adding") (count_of n) (members_view members.old.entries)) (adding_in mark)) (members_view members.old.entries)) }
{
    if let Mark::Joined { adding } = mark {
        put(members, alloc, "adding", Value::from(adding))?;
    }
    Ok(())
}

/// Puts in the steps, the rounds and the copies.
fn put_candidate(
    members: &mut Map<String, Value>,
    alloc: Global,
    x: Candidate,
) -> Result<(), AllocError>
    ensures { OnOk result (members_view members.new.entries ≡ put (codes "s") (count_of x.s) (put (codes "r") (count_of x.r) (put (codes "c") (count_of x.c) (members_view members.old.entries)))) }
{
    put(members, alloc, "c", Value::from(x.c))?;
    put(members, alloc, "r", Value::from(x.r))?;
    put(members, alloc, "s", Value::from(x.s))?;
    Ok(())
}

impl Listed for Point {
    ghost json = { λ names. (point_form names).json };

    fn value(&self, alloc: Global, names: &[Name]) -> Result<Value, AllocError> {
        let (schedule, mark) = (self.schedule(), self.mark());
        // As the definition does, from the last key of the table to the first.
        let mut members = Map::new(alloc);
        put_list(&mut members, alloc, names, "sends", schedule.sends())?;
        put_list(&mut members, alloc, names, "rounds", schedule.rounds())?;
        put_adding(&mut members, alloc, mark)?;
        put_text(&mut members, alloc, "mark", mark_text(mark))?;
        put_candidate(&mut members, alloc, self.candidate())?;
        Ok(Value::Object(members))
    }
}

fn part_text(part: Part) -> &'static str
    ensures { result.now ≡ slice_index_or (part_words part) 1 (codes "joined") }
{
    match part {
        Part::Whole => "whole",
        Part::Reduce => "reduce",
        Part::Gather => "gather",
        Part::Joined => "joined",
    }
}

impl Listed for (Part, Frontier) {
    ghost json = { λ names. (frontier_form names).json };

    fn value(&self, alloc: Global, names: &[Name]) -> Result<Value, AllocError> {
        let mut members = Map::new(alloc);
        put_list(&mut members, alloc, names, "unknown", self.1.unknown())?;
        put_list(&mut members, alloc, names, "refuted", self.1.refuted())?;
        put_list(&mut members, alloc, names, "points", self.1.points())?;
        put_text(&mut members, alloc, "part", part_text(self.0))?;
        Ok(Value::Object(members))
    }
}

/// Puts the text in under the key, where it is said.
fn put_said(
    members: &mut Map<String, Value>,
    alloc: Global,
    key: &str,
    said: bool,
    text: &str,
) -> Result<(), AllocError>
    ensures { OnOk result (members_view members.new.entries ≡ unwrap_or (option_map (λ t. put key.now (string t) (members_view members.old.entries)) (if said then Some text.now else None)) (members_view members.old.entries)) }
{
    if said {
        put_text(members, alloc, key, text)?;
    }
    Ok(())
}

fn words_json(alloc: Global, names: &[Name], words: Words) -> Result<Value, AllocError>
    ensures { IfOk result (λ v. view v ≡ (words_form names.now).json words) }
{
    let (asked, limits) = (words.collective(), words.limits());
    let pruning = limits.pruning();
    let root = node_text(names, asked.root);
    // As the definition does, from the last key of the table to the first.
    let mut members = Map::new(alloc);
    put_said(&mut members, alloc, "ordered", pruning.ordered, "yes")?;
    put_said(&mut members, alloc, "cuts", pruning.cuts, "yes")?;
    put_said(&mut members, alloc, "root", takes_root(asked.kind), root)?;
    let conflicts = Value::from(limits.conflicts());
    put(&mut members, alloc, "conflicts", conflicts)?;
    put(&mut members, alloc, "chunks", Value::from(limits.max_c()))?;
    put(&mut members, alloc, "steps", Value::from(limits.max_s()))?;
    put(&mut members, alloc, "k", Value::from(limits.k()))?;
    put_text(&mut members, alloc, "collective", asked.kind.word())?;
    Ok(Value::Object(members))
}

/// The report as a value of JSON.
fn report_value(alloc: Global, report: &Report) -> Result<Value, AllocError>
    ensures json { IfOk result (λ v. view v ≡ report_json report.now) }
    ensures limits { IsReport report.now }
{
    let topology = report.topology();
    let names = topology.names();
    let mut members = Map::new(alloc);
    put_list(&mut members, alloc, names, "joined", report.joined())?;
    put_list(&mut members, alloc, names, "frontiers", report.frontiers())?;
    put(
        &mut members,
        alloc,
        "topology",
        topology_value(alloc, topology)?,
    )?;
    let words = words_json(alloc, names, report.words())?;
    put(&mut members, alloc, "words", words)?;
    Ok(Value::Object(members))
}

/// The report as JSON without spaces, the keys of each object ascending, with a line feed behind.
/// An `Err` comes only where memory runs out.
pub fn report_json(alloc: Global, report: &Report) -> Result<Vec<u8>, AllocError>
    ensures printed { IfOk result (λ v. v.items ≡ printed (report_json report.now)) }
    // Reading it gives the report back.
    ensures read_back { IfOk result (λ v. report_of_json v.items ≡ Ok report.now) }
{
    let mut out = report_value(alloc, report)?.to_vec(alloc)?;
    out.push(b'\n')?;
    Ok(out)
}
