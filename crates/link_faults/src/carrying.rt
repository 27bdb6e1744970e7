ghost use Rattle.std.specs.Prelude.{◌≡◌, ◌↔◌, IsTrue};
ghost use Rattle.link_faults.specs.Carrying.{Carries, is_carried, is_carrier};

use candidate_order::Candidate;

/// Whether `a`, where it is refuted before a fault, leaves `b` refuted after it: as many steps, no
/// fewer rounds, and no more chunks. It takes no memory.
pub fn carries(a: Candidate, b: Candidate) -> bool
    ensures carries { IsTrue result ↔ Carries a b }
    ensures told { result ≡ is_carrier a b }
{
    a.s == b.s && a.r >= b.r && a.c <= b.c
}

/// Whether one of the old candidates carries this one.
pub fn is_carried(old: &[Candidate], candidate: Candidate) -> bool
    ensures { result ≡ is_carried old.now candidate }
{
    old.iter().any(|one| carries(*one, candidate))
}
