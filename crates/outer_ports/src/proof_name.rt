//! How proof files are named.

ghost use Rattle.std.specs.Prelude.{◌≡◌, IsTrue};
ghost use Rattle.outer_ports.specs.{Files.{part_prefix, file_ending}, Folders.in_range};

use crate::part::Part;
use std::fmt;
use std::fmt::Display;

/// What a file of a shelf holds: the formula of a candidate, a refutation of it, or the log of a
/// search that was given up.
#[derive(Clone, Copy, Debug, PartialEq, Eq, PartialOrd, Ord)]
pub enum FileKind {
    Cnf,
    Lrat,
    Partial,
}

/// The name of a file of a shelf: what it holds, and of which candidate of which part. No file is
/// named with `Part::Joined`.
///
/// `{}` prints it as a file of a folder has it, for example `1-1-1.cnf` or `reduce-2-3-16.lrat`.
#[derive(Clone, Copy, Debug, PartialEq, Eq, PartialOrd, Ord)]
pub struct ProofName {
    pub kind: FileKind,
    pub part: Part,
    pub s: u8,
    pub r: u8,
    pub c: u8,
}

impl Display for ProofName {
    ghost use Rattle.std.specs.Prelude.{Some};
    ghost use Rattle.outer_ports.specs.Files.{file_word};

    ghost output = { λ name. Some (file_word name) };

    fn fmt<W: fmt::Write>(&self, f: &mut fmt::Formatter<W>) -> fmt::Result {
        let front = front_of(self.part);
        let ending = ending_of(self.kind);
        write!(f, "{front}{}-{}-{}{ending}", self.s, self.r, self.c)
    }
}

// Says of the numbers of a name what their type says.
pub(crate) fn know_range(name: ProofName)
    ensures { IsTrue (in_range name) }
{
    let (_s, _r, _c) = (name.s, name.r, name.c);
}

// What stands before a candidate of the part.
fn front_of(part: Part) -> &'static str
    ensures { result.now ≡ part_prefix part }
{
    match part {
        Part::Whole => "",
        Part::Reduce => "reduce-",
        Part::Gather => "gather-",
        Part::Joined => "joined-",
    }
}

fn ending_of(kind: FileKind) -> &'static str
    ensures { result.now ≡ file_ending kind }
{
    match kind {
        FileKind::Cnf => ".cnf",
        FileKind::Lrat => ".lrat",
        FileKind::Partial => ".partial",
    }
}
