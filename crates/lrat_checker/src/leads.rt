//! Clauses that are led by one of their literals, and signatures, by which most of them are passed
//! over.

ghost use Rattle.std.specs.{Prelude.{◌≡◌, ◌<◌, All, length}, List.list_any};
ghost use Rattle.cnf_formula.specs.{Literals.{code_of, is_superset}, Formulas.IsClause};
ghost use Rattle.lrat_checker.specs.{inner.Leads.IsLead, Stored.finds};

use crate::marks::Marks;
use cnf_formula::{ClauseList, Lit};

/// A clause that a literal leads, by its place, and its signature.
#[derive(Clone, Copy)]
pub(crate) struct LedClause {
    pub(crate) place: usize,
    pub(crate) signature: u64,
}

/// The bit of a literal.
fn bit_of(lit: Lit) -> u64
    ensures { result ≡ Rattle.lrat_checker.specs.inner.Leads.bit_of lit }
{
    1 << (lit.code() % 64)
}

/// The bits of a clause's literals. A clause has all bits of one that it is a superset of.
pub(crate) fn signature_of(clause: &[Lit]) -> u64
    ensures { result ≡ Rattle.lrat_checker.specs.inner.Leads.signature_of clause.now }
{
    let mut signature = 0;
    for lit in clause {
        signature |= bit_of(*lit);
    }
    signature
}

/// The list that a clause is put into: of its literals' the one that has fewest clauses in `lists`,
/// or the first list where it has no literal.
pub(crate) fn lead_of(lists: &[Vec<usize>], clause: &[Lit]) -> usize
    requires { All (λ l. code_of l < length lists.now) clause.now }
    ensures { IsLead clause.now result }
{
    let mut lead = 0;
    for lit in clause {
        let code = lit.code();
        if lead == 0 || lists[code].len() < lists[lead].len() {
            lead = code;
        }
    }
    lead
}

/// Whether every literal of the clause is marked.
fn is_marked(clause: &[Lit], marks: &Marks) -> bool
    requires about { IsClause marks.now.vars clause.now }
    ensures { result ≡ is_superset marks.now.falses clause.now }
{
    clause.iter().all(|lit| marks.is_false(*lit))
}

/// Whether a clause that is led has no bit beside those of the signature, is held, and has every
/// literal marked.
fn is_covered(
    live: &[bool],
    clauses: &ClauseList,
    led: LedClause,
    marks: &Marks,
    signature: u64,
) -> bool
    requires lives { length live.now ≡ length clauses.now }
    requires about { All (IsClause marks.now.vars) clauses.now }
    ensures { result ≡ finds live.now clauses.now marks.now.falses signature led }
{
    let place = led.place;
    led.signature | signature == signature
        && place < live.len()
        && live[place]
        && is_marked(clauses.clause(place), marks)
}

/// Whether there is such a clause in the list.
pub(crate) fn has_marked(
    live: &[bool],
    clauses: &ClauseList,
    list: &[LedClause],
    marks: &Marks,
    signature: u64,
) -> bool
    requires lives { length live.now ≡ length clauses.now }
    requires about { All (IsClause marks.now.vars) clauses.now }
    ensures { result ≡ list_any (finds live.now clauses.now marks.now.falses signature) list.now }
{
    list.iter()
        .any(|led| is_covered(live, clauses, *led, marks, signature))
}
