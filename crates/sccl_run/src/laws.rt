//! What a right run of the top call says, and runs that are not right.

ghost use Rattle.std.specs.Prelude.{◌≡◌, ◌≢◌, ◌⊎◌, ◌≤◌, ◌∷◌, ◌++◌, ℕ, Bool, List, [], codes, length, Option, None, Some, Ok, Err, ⊤};
ghost use Rattle.topology_text.specs.Value.{NamedTopologyValue};
ghost use Rattle.outer_ports.specs.{declared.part.Part.Part, Files.Files, Shelf.FilesStay};
ghost use Rattle.candidate_order.specs.Frontiers.{PointValue};
ghost use Rattle.replay_text.specs.Showing.{shown_in, shown_text};
ghost use Rattle.report_form.specs.{Reports.{IsReport, ReportValue, WordsValue}, Numbered.point_at, Spelling.report_text};
ghost use Rattle.command_words.specs.Words.{command_of};
ghost use Rattle.run_rules.specs.{Commands.{Ask, IsOneOf}, Ends.{changes_files, ends_of}, Refusals.{Refusal, refused_word}, Tasks.{Synthesise, Write, due, limit}};
ghost use Rattle.sccl_run.specs.{TopCall.{CountValue, IsRun, IsSilent, RunValue, ToldValue}, Laws.{AskReplay, IsRefusedText, IsRightRun, IsTextOf, NoneIsBetter, WritesWith}};
ghost use Rattle.sccl_run.specs.Rows.{RefuteOneStep, done_search, failed_search, family_run, kept_search, own_file, refused_check};

use command_words::WordCode;
use outer_ports::FileKind;
use run_rules::Status;

// ---- what a right run says

/// A run ends out of memory, or where the sink fails, or else with a status that is listed for its
/// words, whatever the ports tell, and whether or not they stay.
pub fn runs_end_as_listed()
    ensures { (x : RunValue) (told : ToldValue) (a b c : CountValue) → IsRun x told a b c ⊤ ⊤ ⊤ → IsOneOf (Status.OutOfMemory ∷ Status.SinkFailed ∷ ends_of (command_of x.words)) x.status }
{}

/// What is refused is not done.
pub fn refused_is_not_done()
    ensures { (x : RunValue) (a b c : CountValue) → IsRightRun x a b c → (r : Refusal) → due x.words x.bytes ≡ Err r → x.status ≡ Status.Done → ⊥ }
{}

/// The report that a search writes marks a point optimal only where no better candidate within the
/// limits has a schedule.
pub fn optimal_has_no_better()
    ensures { (x : RunValue) (a b c : CountValue) → IsRightRun x a b c → (w : WordsValue) (t : NamedTopologyValue) (kept : Bool) → due x.words x.bytes ≡ Ok (Synthesise w t kept) → x.status ≡ Status.Done → WritesWith NoneIsBetter x.before x.now }
{}

/// Only a command that changes files may change one.
pub fn only_a_search_changes_files()
    ensures { (x : RunValue) (a b c : CountValue) → IsRightRun x a b c → ¬ Ask changes_files x.words → FilesStay x.files x.files_after }
{}

/// A report that a search wrote is verified over the files that the search left, where it is not
/// too long.
pub fn what_a_search_wrote_is_verified()
    ensures { (search check : RunValue) (a b c d e f : CountValue) → IsRightRun search a b c → IsRightRun check d e f
        → (w : WordsValue) (t : NamedTopologyValue) (kept : Bool) → due search.words search.bytes ≡ Ok (Synthesise w t kept) → search.status ≡ Status.Done
        → check.words ≡ codes "check" ∷ [] → search.now ≡ search.before ++ check.bytes → length check.bytes ≤ limit → FilesStay search.files_after check.files
        → (check.status ≡ Status.Done) ⊎ ((check.status ≡ Status.SinkFailed) ⊎ IsSilent check.status) }
{}

/// What is due for the words of a replay: where the bytes are the text of a valid report, that its
/// point is replayed where there is one; and where they are that of none, a refusal at the first
/// line at which they can no longer be one.
#[tactic(auto, using(crate::proofs::ReplaysDue::no_report_is_refused, crate::proofs::ReplaysDue::replayed_is_due, crate::proofs::ReplaysDue::unknown_is_due))]
pub fn replays_are_due()
    ensures replayed { (words : List (List ℕ)) (number word : ℕ) (order : Option ℕ) → AskReplay words number word order → (bytes : List ℕ) (r : ReportValue) (p : Part × PointValue)
        → IsTextOf r bytes → point_at r number ≡ Some p → due words bytes ≡ Ok (Write (shown_text number (shown_in r p) order)) }
    ensures unknown { (words : List (List ℕ)) (number word : ℕ) (order : Option ℕ) → AskReplay words number word order → (bytes : List ℕ) (r : ReportValue)
        → IsTextOf r bytes → point_at r number ≡ None → due words bytes ≡ Err (refused_word WordCode.UnknownPoint word) }
    ensures no_report { (words : List (List ℕ)) (number word : ℕ) (order : Option ℕ) → AskReplay words number word order → (bytes : List ℕ)
        → length bytes ≤ limit → ((r : ReportValue) → IsReport r → bytes ≡ report_text r → ⊥) → IsRefusedText words bytes }
{}

// ---- a run that is right, and runs that are not

/// Some run is right: the words of a family, and its text.
pub fn a_family_that_is_written_is_right()
    ensures { (n : ℕ) → IsRightRun family_run (record { before = n; now = n }) (record { before = n; now = n }) (record { before = n; now = n }) }
{}

/// With the same words a run that ends well and writes nothing is not right, nor one that writes
/// another text; and where the sink failed, what was written begins the text.
pub fn a_family_that_is_left_out_is_wrong()
    ensures nothing { (a b c : CountValue) → IsRightRun (record family_run { now = [] }) a b c → ⊥ }
    ensures other { (a b c : CountValue) → IsRightRun (record family_run { now = codes "topology 1\nnodes n0 n1\ngroup 1 n0>n1\n" }) a b c → ⊥ }
    ensures no_part { (a b c : CountValue) → IsRightRun (record family_run { status = Status.SinkFailed; now = codes "n" }) a b c → ⊥ }
{}

/// A run with the status of a port that it does not use is not right.
pub fn a_family_that_blames_another_port_is_wrong()
    ensures source { (a b c : CountValue) → IsRightRun (record family_run { status = Status.SourceFailed; now = [] }) a b c → ⊥ }
    ensures shelf { (a b c : CountValue) → IsRightRun (record family_run { status = Status.ShelfFailed; now = [] }) a b c → ⊥ }
{}

/// A run that ran out of memory and wrote something is not right.
pub fn a_run_without_memory_that_writes_is_wrong()
    ensures { (a b c : CountValue) → IsRightRun (record family_run { status = Status.OutOfMemory }) a b c → ⊥ }
{}

/// A search that breaks off and leaves every file gone is not right, whichever port failed, or
/// where memory ran out.
pub fn a_search_that_loses_files_is_wrong()
    ensures source { (a b c : CountValue) → IsRightRun (failed_search Status.SourceFailed) a b c → ⊥ }
    ensures shelf { (a b c : CountValue) → IsRightRun (failed_search Status.ShelfFailed) a b c → ⊥ }
    ensures sink { (a b c : CountValue) → IsRightRun (failed_search Status.SinkFailed) a b c → ⊥ }
    ensures memory { (a b c : CountValue) → IsRightRun (failed_search Status.OutOfMemory) a b c → ⊥ }
{}

/// A search that ends well without the formula of a candidate that it solved is not right, nor is
/// one that leaves something in a file in which nothing is owed.
pub fn a_search_with_other_files_is_wrong()
    ensures formula { (files : Files) (a b c : CountValue) → files (own_file FileKind.Cnf) ≡ None → IsRightRun (done_search files) a b c → ⊥ }
    ensures stale { (files : Files) (byte : ℕ) (rest : List ℕ) (a b c : CountValue) → files (own_file FileKind.Lrat) ≡ Some (byte ∷ rest) → IsRightRun (done_search files) a b c → ⊥ }
{}

/// A search that was to keep proofs is not right where it changes a file of a candidate that its
/// files refuted, however it ended and whatever it wrote.
pub fn a_search_that_forgets_to_keep_is_wrong()
    ensures formula { (status : Status) (text : List ℕ) (before after : Files) (a b c : CountValue) → RefuteOneStep before → after (own_file FileKind.Cnf) ≢ before (own_file FileKind.Cnf) → IsRightRun (kept_search status text before after) a b c → ⊥ }
    ensures proof { (status : Status) (text : List ℕ) (before after : Files) (a b c : CountValue) → RefuteOneStep before → after (own_file FileKind.Lrat) ≢ before (own_file FileKind.Lrat) → IsRightRun (kept_search status text before after) a b c → ⊥ }
{}

/// A refusal of a text that was not taken from the source is not right, nor is one that leaves
/// something behind it.
pub fn a_refusal_that_takes_nothing_is_wrong()
    ensures { (a b c : CountValue) (byte : ℕ) (rest : List ℕ) → IsRightRun (refused_check (byte ∷ rest)) a b c → ⊥ }
{}

/// A refusal that names another place is not right, nor one that changes a file, nor is a shelf
/// blamed before a refusal.
pub fn a_refusal_that_says_or_does_more_is_wrong()
    ensures place { (a b c : CountValue) → IsRightRun (record (refused_check []) { now = codes "refused 7 1 2\n" }) a b c → ⊥ }
    ensures file { (a b c : CountValue) → IsRightRun (record (refused_check []) { files_after = λ name. Some [] }) a b c → ⊥ }
    ensures shelf { (a b c : CountValue) → IsRightRun (record (refused_check []) { status = Status.ShelfFailed; now = [] }) a b c → ⊥ }
{}
