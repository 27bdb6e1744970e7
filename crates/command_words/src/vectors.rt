//! What the words of command lines are.
#![tactic(auto, unfolding(crate::specs::Words::command_of, crate::specs::inner::Vectors::digits))]

ghost use Rattle.std.specs.Prelude.{◌≡◌, true, false, [], ◌∷◌, map, Ok, Err, Some, None, codes};
ghost use Rattle.text_lines.specs.Text.{words_of};
ghost use Rattle.candidate_order.specs.Ranges.{unpruned};
ghost use Rattle.command_words.specs.{Codes.word_number, Words.command_of};

use crate::command::{Command, JsonWhat};
use crate::fault::WordCode;
use collective_spec::Kind;
use topology_families::FamilyKind;

/// The codes in their order.
pub fn codes_are_numbered()
    ensures { map word_number (WordCode.NoCommand ∷ WordCode.UnknownCommand ∷ WordCode.UnknownKey ∷ WordCode.KeyTwice ∷ WordCode.KeyMissing ∷ WordCode.BadValue ∷ WordCode.RootNotTaken ∷ WordCode.UnknownRoot ∷ WordCode.UnknownPoint ∷ WordCode.OutOfMemory ∷ WordCode.CustomMismatch ∷ WordCode.ReportNotTaken ∷ WordCode.UnknownGroup ∷ WordCode.NotNarrower ∷ []) ≡ 1 ∷ 2 ∷ 3 ∷ 4 ∷ 5 ∷ 6 ∷ 7 ∷ 8 ∷ 9 ∷ 10 ∷ 12 ∷ 13 ∷ 14 ∷ 15 ∷ [] }
{}

/// Each code, and the index of the word that is blamed.
pub fn refusals()
    ensures no_command { command_of [] ≡ Err (record { code = WordCode.NoCommand; word = 0 }) }
    ensures unknown_command { command_of (words_of (codes "sing")) ≡ Err (record { code = WordCode.UnknownCommand; word = 0 }) }
    ensures unknown_key { command_of (words_of (codes "check x=1")) ≡ Err (record { code = WordCode.UnknownKey; word = 1 }) }
    ensures key_twice { command_of (words_of (codes "synth k=0 k=0")) ≡ Err (record { code = WordCode.KeyTwice; word = 2 }) }
    ensures key_missing { command_of (words_of (codes "synth k=0")) ≡ Err (record { code = WordCode.KeyMissing; word = 2 }) }
    ensures bad_value { command_of (words_of (codes "synth k=00")) ≡ Err (record { code = WordCode.BadValue; word = 1 }) }
    ensures size_of_no_cube { command_of (words_of (codes "family kind=cube size=6")) ≡ Err (record { code = WordCode.BadValue; word = 2 }) }
    ensures size_of_no_torus { command_of (words_of (codes "family kind=torus size=10")) ≡ Err (record { code = WordCode.BadValue; word = 2 }) }
    ensures size_of_no_boxes { command_of (words_of (codes "family size=4 kind=boxes")) ≡ Err (record { code = WordCode.BadValue; word = 1 }) }
    ensures root_not_taken { command_of (words_of (codes "synth collective=alltoall k=0 steps=1 chunks=2 conflicts=1000 root=n0")) ≡ Err (record { code = WordCode.RootNotTaken; word = 6 }) }
{}

/// A text of each command, and of one the keys in another order.
pub fn commands_are_read()
    ensures synth { command_of (words_of (codes "synth collective=broadcast k=0 steps=1 chunks=1 conflicts=1000")) ≡ Ok (Command.Synth Kind.Broadcast 1 (record { k = 0; max_s = 1; max_c = 1; conflicts = 1000; pruning = unpruned }) None false) }
    ensures root { command_of (words_of (codes "synth root=n0 conflicts=100000 chunks=16 steps=8 k=8 collective=reduce")) ≡ Ok (Command.Synth Kind.Reduce 6 (record { k = 8; max_s = 8; max_c = 16; conflicts = 100000; pruning = unpruned }) (Some (record { name = codes "n0"; word = 1 })) false) }
    ensures custom { command_of (words_of (codes "synth k=0 collective=custom steps=2 chunks=1 conflicts=1000")) ≡ Ok (Command.Synth Kind.Custom 2 (record { k = 0; max_s = 2; max_c = 1; conflicts = 1000; pruning = unpruned }) None false) }
    ensures check { command_of (words_of (codes "check")) ≡ Ok Command.Check }
    ensures replay { command_of (words_of (codes "replay point=1")) ≡ Ok (Command.Replay 1 1 None) }
    ensures order { command_of (words_of (codes "replay order=0 point=65535")) ≡ Ok (Command.Replay 65535 2 (Some 0)) }
    ensures programs { command_of (words_of (codes "programs point=1")) ≡ Ok (Command.Programs 1 1) }
    ensures family { command_of (words_of (codes "family kind=line size=1")) ≡ Ok (Command.Family FamilyKind.Line 1) }
    ensures cube { command_of (words_of (codes "family size=16 kind=cube")) ≡ Ok (Command.Family FamilyKind.Cube 16) }
    ensures torus { command_of (words_of (codes "family kind=torus size=12")) ≡ Ok (Command.Family FamilyKind.Torus 12) }
    ensures mesh { command_of (words_of (codes "family size=8 kind=mesh")) ≡ Ok (Command.Family FamilyKind.Mesh 8) }
    ensures switch { command_of (words_of (codes "family kind=switch size=2")) ≡ Ok (Command.Family FamilyKind.Switch 2) }
    ensures boxes { command_of (words_of (codes "family kind=boxes size=16")) ≡ Ok (Command.Family FamilyKind.Boxes 16) }
    ensures trial { command_of (words_of (codes "trial n=3333")) ≡ Ok (Command.Trial 3333) }
{}

/// Each number at the ends of its range, and beyond them. A value that is taken leaves keys
/// lacking.
pub fn numbers_in_their_ranges()
    ensures k_least { command_of (words_of (codes "synth k=0")) ≡ Err (record { code = WordCode.KeyMissing; word = 2 }) }
    ensures k_greatest { command_of (words_of (codes "synth k=8")) ≡ Err (record { code = WordCode.KeyMissing; word = 2 }) }
    ensures k_above { command_of (words_of (codes "synth k=9")) ≡ Err (record { code = WordCode.BadValue; word = 1 }) }
    ensures steps_least { command_of (words_of (codes "synth steps=1")) ≡ Err (record { code = WordCode.KeyMissing; word = 2 }) }
    ensures steps_greatest { command_of (words_of (codes "synth steps=8")) ≡ Err (record { code = WordCode.KeyMissing; word = 2 }) }
    ensures steps_below { command_of (words_of (codes "synth steps=0")) ≡ Err (record { code = WordCode.BadValue; word = 1 }) }
    ensures steps_above { command_of (words_of (codes "synth steps=9")) ≡ Err (record { code = WordCode.BadValue; word = 1 }) }
    ensures chunks_least { command_of (words_of (codes "synth chunks=1")) ≡ Err (record { code = WordCode.KeyMissing; word = 2 }) }
    ensures chunks_greatest { command_of (words_of (codes "synth chunks=16")) ≡ Err (record { code = WordCode.KeyMissing; word = 2 }) }
    ensures chunks_below { command_of (words_of (codes "synth chunks=0")) ≡ Err (record { code = WordCode.BadValue; word = 1 }) }
    ensures chunks_above { command_of (words_of (codes "synth chunks=17")) ≡ Err (record { code = WordCode.BadValue; word = 1 }) }
    ensures conflicts_least { command_of (words_of (codes "synth conflicts=1")) ≡ Err (record { code = WordCode.KeyMissing; word = 2 }) }
    ensures conflicts_greatest { command_of (words_of (codes "synth conflicts=100000")) ≡ Err (record { code = WordCode.KeyMissing; word = 2 }) }
    ensures conflicts_below { command_of (words_of (codes "synth conflicts=0")) ≡ Err (record { code = WordCode.BadValue; word = 1 }) }
    ensures conflicts_above { command_of (words_of (codes "synth conflicts=100001")) ≡ Err (record { code = WordCode.BadValue; word = 1 }) }
    ensures point_least { command_of (words_of (codes "programs point=1")) ≡ Ok (Command.Programs 1 1) }
    ensures point_greatest { command_of (words_of (codes "programs point=65535")) ≡ Ok (Command.Programs 65535 1) }
    ensures point_below { command_of (words_of (codes "programs point=0")) ≡ Err (record { code = WordCode.BadValue; word = 1 }) }
    ensures point_above { command_of (words_of (codes "programs point=65536")) ≡ Err (record { code = WordCode.BadValue; word = 1 }) }
    ensures order_least { command_of (words_of (codes "replay order=0")) ≡ Err (record { code = WordCode.KeyMissing; word = 2 }) }
    ensures order_greatest { command_of (words_of (codes "replay order=18446744073709551615")) ≡ Err (record { code = WordCode.KeyMissing; word = 2 }) }
    ensures order_above { command_of (words_of (codes "replay order=18446744073709551616")) ≡ Err (record { code = WordCode.BadValue; word = 1 }) }
    ensures size_least { command_of (words_of (codes "family size=1")) ≡ Err (record { code = WordCode.KeyMissing; word = 2 }) }
    ensures size_greatest { command_of (words_of (codes "family size=16")) ≡ Err (record { code = WordCode.KeyMissing; word = 2 }) }
    ensures size_below { command_of (words_of (codes "family size=0")) ≡ Err (record { code = WordCode.BadValue; word = 1 }) }
    ensures size_above { command_of (words_of (codes "family size=17")) ≡ Err (record { code = WordCode.BadValue; word = 1 }) }
    ensures n_least { command_of (words_of (codes "trial n=0")) ≡ Ok (Command.Trial 0) }
    ensures n_greatest { command_of (words_of (codes "trial n=4095")) ≡ Ok (Command.Trial 4095) }
    ensures n_above { command_of (words_of (codes "trial n=4096")) ≡ Err (record { code = WordCode.BadValue; word = 1 }) }
{}

/// A word has a key that ends at its first `=`, and the value may hold more of them.
pub fn words_without_a_key()
    ensures empty { command_of (words_of (codes "check ")) ≡ Err (record { code = WordCode.UnknownKey; word = 1 }) }
    ensures no_sign { command_of (words_of (codes "replay point")) ≡ Err (record { code = WordCode.UnknownKey; word = 1 }) }
    ensures no_key { command_of (words_of (codes "replay =1")) ≡ Err (record { code = WordCode.UnknownKey; word = 1 }) }
    ensures sign_in_the_value { command_of (words_of (codes "synth root=a=b")) ≡ Err (record { code = WordCode.BadValue; word = 1 }) }
    ensures two_signs { command_of (words_of (codes "replay point==1")) ≡ Err (record { code = WordCode.BadValue; word = 1 }) }
    ensures no_value { command_of (words_of (codes "replay point=")) ≡ Err (record { code = WordCode.BadValue; word = 1 }) }
    ensures key_of_another { command_of (words_of (codes "programs point=1 order=0")) ≡ Err (record { code = WordCode.UnknownKey; word = 2 }) }
    ensures empty_command { command_of (words_of (codes "")) ≡ Err (record { code = WordCode.UnknownCommand; word = 0 }) }
{}

/// Words are refused from left to right, then a key that is lacking, then what two keys say
/// together.
pub fn first_refusal_counts()
    ensures left_first { command_of (words_of (codes "synth k=9 k=1 x=1")) ≡ Err (record { code = WordCode.BadValue; word = 1 }) }
    ensures twice_before_value { command_of (words_of (codes "synth k=1 k=9")) ≡ Err (record { code = WordCode.KeyTwice; word = 2 }) }
    ensures words_before_missing { command_of (words_of (codes "replay order=0 x=1")) ≡ Err (record { code = WordCode.UnknownKey; word = 2 }) }
    ensures words_before_size { command_of (words_of (codes "family kind=cube size=6 x=1")) ≡ Err (record { code = WordCode.UnknownKey; word = 3 }) }
    ensures missing_before_size { command_of (words_of (codes "family size=6")) ≡ Err (record { code = WordCode.KeyMissing; word = 2 }) }
    ensures missing_before_root { command_of (words_of (codes "synth root=n0 collective=allgather")) ≡ Err (record { code = WordCode.KeyMissing; word = 3 }) }
    ensures at_the_size { command_of (words_of (codes "family size=2 kind=ring")) ≡ Err (record { code = WordCode.BadValue; word = 1 }) }
    ensures custom { command_of (words_of (codes "synth collective=custom")) ≡ Err (record { code = WordCode.KeyMissing; word = 2 }) }
    ensures customs { command_of (words_of (codes "synth collective=customs")) ≡ Err (record { code = WordCode.BadValue; word = 1 }) }
    ensures custom_root { command_of (words_of (codes "synth collective=custom k=0 steps=2 chunks=1 conflicts=1000 root=a")) ≡ Err (record { code = WordCode.RootNotTaken; word = 6 }) }
    ensures long_name { command_of (words_of (codes "synth root=abcdefghijklmnopq")) ≡ Err (record { code = WordCode.BadValue; word = 1 }) }
{}

/// The commands that search by other engines, that narrow a group, and that read and write JSON.
pub fn more_commands_are_read()
    ensures bound { command_of (words_of (codes "bound collective=allgather k=1 steps=3 chunks=2 conflicts=1000")) ≡ Ok (Command.Bound Kind.Allgather 1 (record { k = 1; max_s = 3; max_c = 2; conflicts = 1000; pruning = unpruned }) None false) }
    ensures no_allreduce { command_of (words_of (codes "bound k=1 collective=allreduce")) ≡ Err (record { code = WordCode.BadValue; word = 2 }) }
    ensures ordered { command_of (words_of (codes "ordered collective=reduce k=0 steps=3 chunks=2 conflicts=1000 root=n1")) ≡ Ok (Command.Ordered Kind.Reduce 1 (record { k = 0; max_s = 3; max_c = 2; conflicts = 1000; pruning = unpruned }) (Some (record { name = codes "n1"; word = 6 }))) }
    ensures node_of_that_name { command_of (words_of (codes "bound root=allreduce")) ≡ Err (record { code = WordCode.KeyMissing; word = 2 }) }
    ensures no_order_of_allreduce { command_of (words_of (codes "ordered collective=allreduce")) ≡ Err (record { code = WordCode.BadValue; word = 1 }) }
    ensures degrade { command_of (words_of (codes "degrade width=0 group=255")) ≡ Ok (Command.Degrade 255 2 0 1) }
    ensures width_above { command_of (words_of (codes "degrade width=17")) ≡ Err (record { code = WordCode.BadValue; word = 1 }) }
    ensures group_above { command_of (words_of (codes "degrade group=256")) ≡ Err (record { code = WordCode.BadValue; word = 1 }) }
    ensures no_width { command_of (words_of (codes "degrade group=0")) ≡ Err (record { code = WordCode.KeyMissing; word = 2 }) }
    ensures json { command_of (words_of (codes "json what=report")) ≡ Ok (Command.Json JsonWhat.Report None) }
    ensures programs { command_of (words_of (codes "json point=2 what=programs")) ≡ Ok (Command.Json JsonWhat.Programs (Some (record { point = 2; word = 1 }))) }
    ensures no_point { command_of (words_of (codes "json what=programs")) ≡ Err (record { code = WordCode.KeyMissing; word = 2 }) }
    ensures point_of_report { command_of (words_of (codes "json what=report point=1")) ≡ Err (record { code = WordCode.UnknownKey; word = 2 }) }
    ensures point_alone { command_of (words_of (codes "json point=1")) ≡ Err (record { code = WordCode.UnknownKey; word = 1 }) }
    ensures point_behind_words { command_of (words_of (codes "json what=report point=1 what=report")) ≡ Err (record { code = WordCode.KeyTwice; word = 3 }) }
    ensures unjson { command_of (words_of (codes "unjson what=topology")) ≡ Ok (Command.Unjson JsonWhat.Topology) }
    ensures no_programs { command_of (words_of (codes "unjson what=programs what=report")) ≡ Err (record { code = WordCode.BadValue; word = 1 }) }
{}

/// The keys that have one word alone: each says what it says, and nothing more.
pub fn keys_of_one_word_are_read()
    ensures cuts { command_of (words_of (codes "synth collective=broadcast k=0 steps=1 chunks=1 conflicts=1000 cuts=yes")) ≡ Ok (Command.Synth Kind.Broadcast 1 (record { k = 0; max_s = 1; max_c = 1; conflicts = 1000; pruning = record { cuts = true; ordered = false } }) None false) }
    ensures ordered { command_of (words_of (codes "synth ordered=yes collective=alltoall k=0 steps=1 chunks=2 conflicts=1000")) ≡ Ok (Command.Synth Kind.Alltoall 2 (record { k = 0; max_s = 1; max_c = 2; conflicts = 1000; pruning = record { cuts = false; ordered = true } }) None false) }
    ensures kept { command_of (words_of (codes "synth collective=allreduce k=0 steps=1 kept=yes chunks=1 conflicts=1000")) ≡ Ok (Command.Synth Kind.Allreduce 1 (record { k = 0; max_s = 1; max_c = 1; conflicts = 1000; pruning = unpruned }) None true) }
    ensures together { command_of (words_of (codes "synth kept=yes ordered=yes cuts=yes collective=gather k=0 steps=1 chunks=1 conflicts=1000 root=a")) ≡ Ok (Command.Synth Kind.Gather 4 (record { k = 0; max_s = 1; max_c = 1; conflicts = 1000; pruning = record { cuts = true; ordered = true } }) (Some (record { name = codes "a"; word = 9 })) true) }
    ensures sets { command_of (words_of (codes "bound collective=allgather k=1 sets=all steps=3 chunks=2 conflicts=1000")) ≡ Ok (Command.Bound Kind.Allgather 1 (record { k = 1; max_s = 3; max_c = 2; conflicts = 1000; pruning = unpruned }) None true) }
    ensures left_of_missing { command_of (words_of (codes "synth cuts=yes ordered=yes kept=yes")) ≡ Err (record { code = WordCode.KeyMissing; word = 4 }) }
    ensures root { command_of (words_of (codes "synth collective=alltoall k=0 steps=1 chunks=2 conflicts=1000 cuts=yes root=a")) ≡ Err (record { code = WordCode.RootNotTaken; word = 7 }) }
{}

/// No other value of them is taken, none is given twice, and no other command has them.
pub fn keys_of_one_word_are_refused()
    ensures no { command_of (words_of (codes "synth cuts=no")) ≡ Err (record { code = WordCode.BadValue; word = 1 }) }
    ensures all { command_of (words_of (codes "synth cuts=all")) ≡ Err (record { code = WordCode.BadValue; word = 1 }) }
    ensures empty { command_of (words_of (codes "synth k=0 ordered=")) ≡ Err (record { code = WordCode.BadValue; word = 2 }) }
    ensures longer { command_of (words_of (codes "synth kept=yess")) ≡ Err (record { code = WordCode.BadValue; word = 1 }) }
    ensures capital { command_of (words_of (codes "synth kept=Yes")) ≡ Err (record { code = WordCode.BadValue; word = 1 }) }
    ensures sign { command_of (words_of (codes "synth ordered=yes=yes")) ≡ Err (record { code = WordCode.BadValue; word = 1 }) }
    ensures yes { command_of (words_of (codes "bound sets=yes")) ≡ Err (record { code = WordCode.BadValue; word = 1 }) }
    ensures cuts_twice { command_of (words_of (codes "synth cuts=yes cuts=no")) ≡ Err (record { code = WordCode.KeyTwice; word = 2 }) }
    ensures ordered_twice { command_of (words_of (codes "synth ordered=yes kept=yes ordered=yes")) ≡ Err (record { code = WordCode.KeyTwice; word = 3 }) }
    ensures kept_twice { command_of (words_of (codes "synth kept=yes kept=yes")) ≡ Err (record { code = WordCode.KeyTwice; word = 2 }) }
    ensures sets_twice { command_of (words_of (codes "bound sets=all sets=all")) ≡ Err (record { code = WordCode.KeyTwice; word = 2 }) }
    ensures sets_of_synth { command_of (words_of (codes "synth sets=all")) ≡ Err (record { code = WordCode.UnknownKey; word = 1 }) }
    ensures sets_of_ordered { command_of (words_of (codes "ordered sets=all")) ≡ Err (record { code = WordCode.UnknownKey; word = 1 }) }
    ensures cuts_of_bound { command_of (words_of (codes "bound cuts=yes")) ≡ Err (record { code = WordCode.UnknownKey; word = 1 }) }
    ensures ordered_of_bound { command_of (words_of (codes "bound ordered=yes")) ≡ Err (record { code = WordCode.UnknownKey; word = 1 }) }
    ensures kept_of_bound { command_of (words_of (codes "bound kept=yes")) ≡ Err (record { code = WordCode.UnknownKey; word = 1 }) }
    ensures cuts_of_ordered { command_of (words_of (codes "ordered cuts=yes")) ≡ Err (record { code = WordCode.UnknownKey; word = 1 }) }
    ensures ordered_of_ordered { command_of (words_of (codes "ordered ordered=yes")) ≡ Err (record { code = WordCode.UnknownKey; word = 1 }) }
    ensures kept_of_ordered { command_of (words_of (codes "ordered kept=yes")) ≡ Err (record { code = WordCode.UnknownKey; word = 1 }) }
    ensures kept_of_check { command_of (words_of (codes "check kept=yes")) ≡ Err (record { code = WordCode.UnknownKey; word = 1 }) }
    ensures cuts_of_degrade { command_of (words_of (codes "degrade cuts=yes")) ≡ Err (record { code = WordCode.UnknownKey; word = 1 }) }
    ensures sets_of_degrade { command_of (words_of (codes "degrade sets=all")) ≡ Err (record { code = WordCode.UnknownKey; word = 1 }) }
{}
