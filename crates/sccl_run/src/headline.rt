//! What is printed is right, in words that speak of no port, file, formula, proof or reading.

ghost use Rattle.std.specs.Prelude.{◌≡◌, ◌∷◌, ◌++◌, ℕ, Bool, [], codes, false};
ghost use Rattle.topology_text.specs.Value.{NamedTopologyValue};
ghost use Rattle.report_form.specs.{Reports.{IsReport, ReportValue, WordsValue}, Rows.broadcast_report, Spelling.report_text};
ghost use Rattle.frontier_audit.specs.Rights.{IsRight};
ghost use Rattle.run_rules.specs.Rows.{search, two_nodes_text};
ghost use Rattle.sccl_run.specs.{TopCall.{CountValue, RunValue}, Laws.IsRightRun, Headline.{AsksBound, AsksDegraded, AsksOrdered, AsksSynth, Prints, PrintsBound, PrintsDegraded, PrintsOrdered, Verifies}};

use run_rules::Status;

/// What a search prints is the text of one report of just what was asked, and it is right; and
/// what is verified is the text of a report that is right, whoever wrote it.
pub fn what_is_printed_is_true()
    ensures synth { (x : RunValue) (a b c : CountValue) → IsRightRun x a b c → x.status ≡ Status.Done → (kept : Bool) (w : WordsValue) (t : NamedTopologyValue) → AsksSynth kept x.words x.bytes w t → Prints w t x.before x.now }
    ensures check { (x : RunValue) (a b c : CountValue) → IsRightRun x a b c → x.status ≡ Status.Done → x.words ≡ codes "check" ∷ [] → Verifies x.bytes }
{}

/// Whichever report is read in what a search appended is of these words and this topology, and
/// right: a report of another topology, or one that is not right, is never printed.
pub fn what_is_read_is_what_was_asked()
    ensures words { (x : RunValue) (a b c : CountValue) → IsRightRun x a b c → x.status ≡ Status.Done → (kept : Bool) (w : WordsValue) (t : NamedTopologyValue) → AsksSynth kept x.words x.bytes w t
        → (r : ReportValue) → IsReport r → x.now ≡ x.before ++ report_text r → r.words ≡ w }
    ensures topology { (x : RunValue) (a b c : CountValue) → IsRightRun x a b c → x.status ≡ Status.Done → (kept : Bool) (w : WordsValue) (t : NamedTopologyValue) → AsksSynth kept x.words x.bytes w t
        → (r : ReportValue) → IsReport r → x.now ≡ x.before ++ report_text r → r.topology ≡ t }
    ensures right { (x : RunValue) (a b c : CountValue) → IsRightRun x a b c → x.status ≡ Status.Done → (kept : Bool) (w : WordsValue) (t : NamedTopologyValue) → AsksSynth kept x.words x.bytes w t
        → (r : ReportValue) → IsReport r → x.now ≡ x.before ++ report_text r → IsRight r }
{}

/// What the other searches print is right. Of `bound` no schedule, of however many steps, has fewer
/// rounds for its chunk count than the floor that is printed; of `ordered` what is refuted has no
/// schedule at all; of `degrade` all this over the links that are left.
pub fn what_other_searches_print_is_true()
    ensures bound { (x : RunValue) (a b c : CountValue) → IsRightRun x a b c → x.status ≡ Status.Done → (all_sets : Bool) (w : WordsValue) (t : NamedTopologyValue) → AsksBound all_sets x.words x.bytes w t → PrintsBound all_sets w t x.before x.now }
    ensures ordered { (x : RunValue) (a b c : CountValue) → IsRightRun x a b c → x.status ≡ Status.Done → (w : WordsValue) (t : NamedTopologyValue) → AsksOrdered x.words x.bytes w t → PrintsOrdered w t x.before x.now }
    ensures degraded { (x : RunValue) (a b c : CountValue) → IsRightRun x a b c → x.status ≡ Status.Done → (r : ReportValue) (group width : ℕ) → AsksDegraded x.words x.bytes r group width → PrintsDegraded r group width x.before x.now }
{}

/// Some search is asked for: that of a broadcast from the first of two nodes.
#[tactic(auto, using(crate::proofs::Printed::small_asks))]
pub fn a_small_search_is_asked_for()
    ensures { AsksSynth false (search (codes "collective=broadcast") (codes "root=n0" ∷ [])) two_nodes_text broadcast_report.words broadcast_report.topology }
{}
