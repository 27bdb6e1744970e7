//! The lines that a report's JSON stands for.

ghost use Rattle.std.specs.Prelude.{◌≡◌, [], ◌∷◌, codes, is_some};
ghost use Rattle.serde_json.specs.{Find.get, View.view};
ghost use Rattle.json_values.specs.{Shape.field, Forms.{says_word, word}};
ghost use Rattle.json_rules.specs.{ReportForm.{send, point, frontier, kinds, words}, ReportJson.report_in};

use json_values::{
    At, Each, Either, Empty, Fields, Headed, Keyed, Lined, Lines, May, Nothing, Row, Token,
    TopologyLines, Version, says,
};
use serde_json::Value;
use text_lines::Stop;

/// The line of a send: the chunk, the two nodes and the step.
#[derive(Drop)]
struct SendLine;

impl Lines for SendLine {
    ghost lines = { λ _. (send []).read };

    fn push_lines(&self, out: &mut Vec<u8>, value: &Value) -> Result<(), Stop<()>> {
        let row = Row(&[Token::Count, Token::Name, Token::Name, Token::Count]);
        Lined("send", row).push_lines(out, value)
    }
}

/// Whether the mark of a point is that of a joined one.
fn is_joined(value: &Value) -> bool
    ensures { result ≡ says_word (codes "mark") (word (codes "optimal" ∷ codes "open" ∷ codes "joined" ∷ [])).read (codes "joined") (view value.now) }
{
    says(value, "mark", "joined")
}

/// The lines of a point: what it costs, its rounds and its sends.
#[derive(Drop)]
struct PointLines;

impl Lines for PointLines {
    ghost lines = { λ _. (point []).read };

    fn push_lines(&self, out: &mut Vec<u8>, value: &Value) -> Result<(), Stop<()>> {
        let joined = is_joined(value);
        let keys = [
            ("adding", joined),
            ("c", true),
            ("mark", true),
            ("r", true),
            ("rounds", true),
            ("s", true),
            ("sends", true),
        ];
        let mark = At("mark", Token::OneOf(&["optimal", "open", "joined"]));
        let marked = (mark, Either(joined, At("adding", Token::Count), Nothing));
        let (s, r, c) = (
            At("s", Token::Count),
            At("r", Token::Count),
            At("c", Token::Count),
        );
        let rounds = Lined("rounds", At("rounds", Each(Token::Count)));
        let sends = At("sends", Each(SendLine));
        Fields(
            &keys,
            (Lined("point", (s, (r, (c, marked)))), (rounds, sends)),
        )
        .push_lines(out, value)
    }
}

/// The lines of a frontier: of its points, and of what is refuted and what is unknown.
#[derive(Drop)]
struct FrontierLines;

impl Lines for FrontierLines {
    ghost lines = { λ _. (frontier []).read };

    fn push_lines(&self, out: &mut Vec<u8>, value: &Value) -> Result<(), Stop<()>> {
        let keys = [
            ("part", true),
            ("points", true),
            ("refuted", true),
            ("unknown", true),
        ];
        let part = Lined(
            "frontier",
            At("part", Token::OneOf(&["whole", "reduce", "gather"])),
        );
        let points = At("points", Each(PointLines));
        let refuted = Row(&[Token::Count, Token::Count, Token::Count]);
        let unknown = Row(&[Token::Count, Token::Count, Token::Count, Token::Count]);
        let refuted = At("refuted", Each(Lined("refuted", refuted)));
        let unknown = At("unknown", Each(Lined("unknown", unknown)));
        Fields(&keys, (part, (points, (refuted, unknown)))).push_lines(out, value)
    }
}

/// Whether there is such a key.
fn has(value: &Value, key: &str) -> bool
    ensures { result ≡ is_some (get key.now (view value.now)) }
{
    value.get(key).is_some()
}

/// The line of what was asked for.
#[derive(Drop)]
struct WordsLine;

impl Lines for WordsLine {
    ghost lines = { λ _. (words []).read };

    fn push_lines(&self, out: &mut Vec<u8>, value: &Value) -> Result<(), Stop<()>> {
        let keys = [
            ("chunks", true),
            ("collective", true),
            ("conflicts", true),
            ("cuts", has(value, "cuts")),
            ("k", true),
            ("ordered", has(value, "ordered")),
            ("root", has(value, "root")),
            ("steps", true),
        ];
        let kinds = Token::OneOf(&[
            "broadcast",
            "gather",
            "allgather",
            "scatter",
            "alltoall",
            "reduce",
            "reducescatter",
            "allreduce",
            "custom",
        ]);
        let collective = At("collective", Keyed("collective", kinds));
        let k = At("k", Keyed("k", Token::Count));
        let steps = At("steps", Keyed("steps", Token::Count));
        let chunks = At("chunks", Keyed("chunks", Token::Count));
        let conflicts = At("conflicts", Keyed("conflicts", Token::Count));
        let root = May("root", Keyed("root", Token::Name));
        let cuts = May("cuts", Keyed("cuts", Token::OneOf(&["yes"])));
        let ordered = May("ordered", Keyed("ordered", Token::OneOf(&["yes"])));
        let numbers = (k, (steps, (chunks, (conflicts, (root, (cuts, ordered))))));
        Fields(&keys, Lined("synth", (collective, numbers))).push_lines(out, value)
    }
}

/// Whether an allreduce is asked for.
fn joins(value: &Value) -> bool
    ensures { result ≡ says_word (codes "words") (λ w. field (codes "collective") kinds.read w) (codes "allreduce") (view value.now) }
{
    match value.get("words") {
        Some(words) => says(words, "collective", "allreduce"),
        None => false,
    }
}

/// The lines of a report's text.
#[derive(Drop)]
pub struct ReportLines;

impl Lines for ReportLines {
    ghost lines = { λ _. report_in };

    fn push_lines(&self, out: &mut Vec<u8>, value: &Value) -> Result<(), Stop<()>> {
        let keys = [
            ("frontiers", true),
            ("joined", true),
            ("topology", true),
            ("words", true),
        ];
        let title = Lined("sccl", At("topology", At("version", Version)));
        let frontiers = At("frontiers", Each(FrontierLines));
        let points = Headed("joined", At("joined", Each(PointLines)));
        let joined = Either(joins(value), points, At("joined", Empty));
        let results = (frontiers, (joined, Lined("end", Nothing)));
        let lines = (
            At("words", WordsLine),
            (At("topology", TopologyLines), results),
        );
        Fields(&keys, (title, lines)).push_lines(out, value)
    }
}
