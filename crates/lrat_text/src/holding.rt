//! What the bytes that a reader holds say.

ghost use Rattle.std.specs.Prelude.{◌≡◌, ℕ, ◌+◌, ◌^◌, ◌<◌, ◌≤◌, length, drop, IfSome, IfNone, IfOk, OnSome};
ghost use Rattle.text_lines.specs.Text.{rows_of};
ghost use Rattle.lrat_text.specs.{Reading.{nothing_said, said_by}, inner.Holding.{IsClear, IsFirstFrom}};

use crate::fault::LratTextFault;
use crate::lines::row_says;
use cnf_formula::{LratLine, OutOfMemory};
use std::alloc::{AllocError, Global};
use text_lines::{Stop, end_of};

/// A line by where it ends, where what is behind it and its line feed begins, and whether it has
/// one.
#[derive(Clone, Copy)]
pub struct HeldLine {
    pub end: usize,
    pub behind: usize,
    pub whole: bool,
}

/// An answer, how many bytes are taken off the front, and how many bytes were searched for a line
/// feed: behind those that are taken there is none among them.
#[derive(Drop)]
pub struct Answered {
    pub answer: Result<Option<LratLine>, LratTextFault>,
    pub taken: usize,
    pub searched: usize,
}

/// What these bytes say, of which the first so many were searched for a line feed and have none. No
/// byte is searched twice, nor by the next call, where that is passed how many this one searched.
pub fn answer_of(
    alloc: Global,
    place: u64,
    bytes: &[u8],
    finished: bool,
    searched: usize,
) -> Result<Answered, OutOfMemory>
    requires room { place + length bytes.now < 2 ^ 64 }
    requires within { searched ≤ length bytes.now }
    requires clear { IsClear bytes.now 0 searched }
    ensures said { IfOk result (λ a. said_by finished place (rows_of bytes.now) ≡ record { answer = a.answer; taken = a.taken }) }
    ensures some { IfOk result (λ a. IfOk a.answer (λ line. OnSome line (0 < a.taken))) }
    ensures ordered { IfOk result (λ a. a.taken ≤ a.searched) }
    ensures within { IfOk result (λ a. a.searched ≤ length bytes.now) }
    ensures clear { IfOk result (λ a. IsClear bytes.now a.taken a.searched) }
{
    let mut taken = 0;
    let mut searched = searched;
    while let Some(line) = first_from(bytes, finished, taken, searched) {
        let at = place + taken as u64;
        match row_says(alloc, at, &bytes[taken..line.end], line.whole) {
            Ok(None) => {
                taken = line.behind;
                searched = line.behind;
            }
            Ok(said) => {
                return Ok(Answered {
                    answer: Ok(said),
                    taken: line.behind,
                    searched: line.behind,
                });
            }
            Err(Stop::Refused(fault)) => {
                return Ok(Answered {
                    answer: Err(fault),
                    taken,
                    searched,
                });
            }
            Err(Stop::Memory) => return Err(AllocError),
        }
    }
    Ok(Answered {
        answer: Ok(None),
        taken,
        searched: bytes.len(),
    })
}

/// The first line from a byte on, if it may be read: a line feed ends it, or no more bytes come.
fn first_from(bytes: &[u8], finished: bool, from: usize, searched: usize) -> Option<HeldLine>
    requires ordered { from ≤ searched }
    requires within { searched ≤ length bytes.now }
    requires clear { IsClear bytes.now from searched }
    ensures none { IfNone result ((place : ℕ) → said_by finished place (rows_of (drop from bytes.now)) ≡ nothing_said) }
    ensures clear { IfNone result (IsClear bytes.now from (length bytes.now)) }
    ensures some { IfSome result (IsFirstFrom bytes.now finished from) }
{
    let end = end_of(bytes, searched, bytes.len(), b'\n');
    if end < bytes.len() {
        return Some(HeldLine {
            end,
            behind: end + 1,
            whole: true,
        });
    }
    if from < end && finished {
        return Some(HeldLine {
            end,
            behind: end,
            whole: false,
        });
    }
    None
}
