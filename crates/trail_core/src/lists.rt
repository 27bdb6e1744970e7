//! For each literal the list of the clauses that watch it (two watched literals: Moskewicz,
//! Madigan, Zhao, Zhang and Malik 2001).

ghost use Rattle.std.specs.Prelude.{◌-◌, ◌≡◌, ℕ, ◌+◌, ◌*◌, ◌<◌, ◌≤◌, [], ◌∷◌, ◌++◌, length, slice_set, slice_index, swap_remove, Contains, IfOk, OnErr, OnOk};
ghost use Rattle.cnf_formula.specs.Literals.{code_of};
ghost use Rattle.trail_core.specs.Watching.{WatchValue, ListsValue, list_at, watches_at, IsOnlyNew};

use crate::span::{Room, Span, admit};
use crate::watch::Watch;
use cnf_formula::Lit;
use std::alloc::{AllocError, Global};
use std::marker::Model;

/// Lists of clauses, by literal, that lie in one pool, each with room of its own.
#[derive(Drop)]
pub(crate) struct WatchLists {
    pool: Vec<Watch>,
    /// Apart from the rooms, which propagation does not read.
    spans: Vec<Span>,
    rooms: Vec<Room>,
}

impl Model for WatchLists {
    ghost use Rattle.std.specs.Prelude.{map, length};
    ghost use Rattle.trail_core.specs.{Watching.ListsValue, inner.Pooled.{entries_of, numbers_of, ArePooled}};

    ghost Value = { ListsValue };

    ghost view = { λ a. record { watches = map (entries_of a.pool.items) a.spans.items; lists = map numbers_of (map (entries_of a.pool.items) a.spans.items); rooms = map (λ r. r.size) a.rooms.items; uses = map (λ r. r.uses) a.rooms.items } };

    ghost invariant = { λ a. ArePooled (length a.pool.items) a.spans.items a.rooms.items };
}

impl WatchLists {
    /// Empty lists, each with room for so many clauses, as many as it may come to hold.
    pub(crate) fn new(alloc: Global, rooms: &[u32]) -> Result<WatchLists, AllocError>
        ensures len { IfOk result (λ w. length w.lists ≡ length rooms.now) }
        ensures lists { IfOk result (λ w. (k : ℕ) → list_at w.lists k ≡ []) }
        ensures watches { IfOk result (λ w. (k : ℕ) → watches_at w.watches k ≡ []) }
        ensures rooms { IfOk result (λ w. w.rooms ≡ rooms.now) }
        ensures uses { IfOk result (λ w. w.uses ≡ rooms.now) }
    {
        let mut spans = Vec::with_capacity(alloc, rooms.len())?;
        let mut all_rooms = Vec::with_capacity(alloc, rooms.len())?;
        let mut start = 0u32;
        for room in rooms {
            if *room > u32::MAX - start {
                return Err(AllocError);
            }
            spans.push_reserved(Span { start, len: 0 });
            all_rooms.push_reserved(Room {
                size: *room,
                uses: *room,
            });
            start += *room;
        }
        Ok(WatchLists {
            pool: vec![in alloc; Watch::default(); start as usize]?,
            spans,
            rooms: all_rooms,
        })
    }

    /// How many clauses watch a literal.
    #[tactic(auto, using(crate::proofs::Listing::known))]
    pub(crate) fn count(&self, lit: Lit) -> usize
        requires { code_of lit < length self.now.lists }
        ensures { result ≡ length (list_at self.now.lists (code_of lit)) }
    {
        self.spans[lit.code()].len as usize
    }

    /// The entry at a place of a literal's list.
    #[tactic(auto, using(crate::proofs::Listing::known))]
    pub(crate) fn entry(&self, lit: Lit, place: usize) -> Watch
        requires known { code_of lit < length self.now.lists }
        requires within { place < length (list_at self.now.lists (code_of lit)) }
        ensures clause { result.clause ≡ slice_index (list_at self.now.lists (code_of lit)) place }
        ensures stands { Contains (watches_at self.now.watches (code_of lit)) result }
    {
        self.pool[self.spans[lit.code()].start as usize + place]
    }

    /// Puts an entry of the same clause in the place of one of a literal's list.
    #[tactic(auto, using(crate::proofs::Listing::known))]
    pub(crate) fn replace(&mut self, lit: Lit, place: usize, watch: Watch)
        requires known { code_of lit < length self.old.lists }
        requires within { place < length (list_at self.old.lists (code_of lit)) }
        requires is { watch.clause ≡ slice_index (list_at self.old.lists (code_of lit)) place }
        ensures lists { self.new.lists ≡ self.old.lists }
        ensures rooms { self.new.rooms ≡ self.old.rooms }
        ensures uses { self.new.uses ≡ self.old.uses }
        ensures watches { IsOnlyNew self.old.watches self.new.watches (code_of lit) watch }
    {
        let start = self.spans[lit.code()].start as usize;
        self.pool[start + place] = watch;
    }

    /// Takes the entry at a place out of a literal's list, and adds one of the same clause to
    /// another's.
    pub(crate) fn shift(&mut self, from: Lit, place: usize, to: Lit, watch: Watch)
        requires from_known { code_of from < length self.old.lists }
        requires to_known { code_of to < length self.old.lists }
        requires within { place < length (list_at self.old.lists (code_of from)) }
        requires room { length (list_at self.old.lists (code_of to)) < slice_index self.old.rooms (code_of to) }
        requires differ { code_of from ≡ code_of to → ⊥ }
        requires is { watch.clause ≡ slice_index (list_at self.old.lists (code_of from)) place }
        ensures lists { self.new.lists ≡ slice_set (slice_set self.old.lists (code_of from) (swap_remove (list_at self.old.lists (code_of from)) place watch.clause)) (code_of to) (list_at self.old.lists (code_of to) ++ watch.clause ∷ []) }
        ensures rooms { self.new.rooms ≡ self.old.rooms }
        ensures uses { self.new.uses ≡ self.old.uses }
        ensures watches { IsOnlyNew self.old.watches self.new.watches (code_of to) watch }
    {
        self.take_out(from, place);
        self.add(to, watch);
    }

    /// Takes the entry at a place out of a literal's list; the last entry comes in its place.
    #[tactic(auto, using(crate::proofs::Listing::known))]
    fn take_out(&mut self, lit: Lit, place: usize)
        requires known { code_of lit < length self.old.lists }
        requires within { place < length (list_at self.old.lists (code_of lit)) }
        ensures watches { (k : ℕ) (w : WatchValue) → Contains (watches_at self.new.watches k) w → Contains (watches_at self.old.watches k) w }
        ensures lists { (d : ℕ) → self.new.lists ≡ slice_set self.old.lists (code_of lit) (swap_remove (list_at self.old.lists (code_of lit)) place d) }
        ensures rooms { self.new.rooms ≡ self.old.rooms }
        ensures uses { self.new.uses ≡ self.old.uses }
    {
        let span = &mut self.spans[lit.code()];
        span.len -= 1;
        let last = (span.start + span.len) as usize;
        let place = span.start as usize + place;
        self.pool[place] = self.pool[last];
    }

    /// Makes room in a literal's list for one clause more.
    pub(crate) fn admit(&mut self, lit: Lit) -> Result<(), AllocError>
        requires known { code_of lit < length self.old.lists }
        requires uses { code_of lit < length self.old.uses }
        requires few { length (list_at self.old.lists (code_of lit)) ≤ slice_index self.old.uses (code_of lit) }
        ensures lists { self.new.lists ≡ self.old.lists }
        ensures watches { self.new.watches ≡ self.old.watches }
        ensures rooms { (k : ℕ) → slice_index self.old.rooms k ≤ slice_index self.new.rooms k }
        ensures len { length self.new.rooms ≡ length self.old.rooms }
        ensures err { OnErr result (self.new.uses ≡ self.old.uses) }
        ensures ok { OnOk result ((self.new.uses ≡ slice_set self.old.uses (code_of lit) (slice_index self.old.uses (code_of lit) + 1)) × (slice_index self.old.uses (code_of lit) + 1 ≤ slice_index self.new.rooms (code_of lit))) }
    {
        let code = lit.code();
        admit(&mut self.pool, &mut self.spans[code], &mut self.rooms[code])
    }

    /// Adds an entry to a literal's list.
    #[tactic(auto, using(crate::proofs::Listing::known))]
    pub(crate) fn add(&mut self, lit: Lit, watch: Watch)
        requires known { code_of lit < length self.old.lists }
        requires room { length (list_at self.old.lists (code_of lit)) < slice_index self.old.rooms (code_of lit) }
        ensures lists { self.new.lists ≡ slice_set self.old.lists (code_of lit) (list_at self.old.lists (code_of lit) ++ watch.clause ∷ []) }
        ensures rooms { self.new.rooms ≡ self.old.rooms }
        ensures uses { self.new.uses ≡ self.old.uses }
        ensures watches { IsOnlyNew self.old.watches self.new.watches (code_of lit) watch }
    {
        let span = &mut self.spans[lit.code()];
        let place = (span.start + span.len) as usize;
        span.len += 1;
        self.pool[place] = watch;
    }
}
