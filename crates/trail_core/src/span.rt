//! A list that lies in a pool with others.

ghost use Rattle.std.specs.Prelude.{◌≡◌, ◌⊎◌, ℕ, ◌+◌, ◌<◌, ◌≤◌, length, get_or, OnErr, OnOk};
ghost use Rattle.trail_core.specs.{Watching.WatchValue, inner.Pooled.{IsInside, entries_of}};

use crate::watch::Watch;
use std::alloc::AllocError;

/// Where a list lies.
#[derive(Clone, Copy)]
pub(crate) struct Span {
    pub start: u32,
    pub len: u32,
}

/// What a list has room for.
#[derive(Clone, Copy)]
pub(crate) struct Room {
    pub size: u32,
    /// How many entries the list may come to hold.
    pub uses: u32,
}

/// Copies a list to the end of its pool, with more than twice its room there. `Err` comes only where
/// memory runs out or the pool would have more than 4,294,967,295 places.
fn move_to_end(pool: &mut Vec<Watch>, span: &mut Span, room: &mut Room) -> Result<(), AllocError>
    requires inside { IsInside (length pool.old.items) span.old room.old }
    requires small { length pool.old.items < 4294967296 }
    ensures long { length pool.old.items ≤ length pool.new.items }
    ensures front { (i : ℕ) (d : WatchValue) → i < length pool.old.items → get_or pool.new.items i d ≡ get_or pool.old.items i d }
    ensures small { length pool.new.items < 4294967296 }
    ensures inside { IsInside (length pool.new.items) span.new room.new }
    ensures uses { room.new.uses ≡ room.old.uses }
    ensures ok { OnOk result ((span.new.start ≡ length pool.old.items) × (room.old.size < room.new.size)) }
    ensures err { OnErr result ((span.new ≡ span.old) × (room.new ≡ room.old)) }
    ensures entries { entries_of pool.new.items span.new ≡ entries_of pool.old.items span.old }
{
    let start = pool.len() as u32;
    let size = 2 * u64::from(room.size) + 2;
    if size > u64::from(u32::MAX - start) {
        return Err(AllocError);
    }
    let size = size as u32;
    pool.extend_from_within(span.start as usize..(span.start + span.len) as usize)?;
    pool.resize((start + size) as usize, Watch::default())?;
    span.start = start;
    room.size = size;
    Ok(())
}

/// Makes room for one entry more in a list, which may be moved for it. `Err` is as for
/// `move_to_end`.
pub(crate) fn admit(
    pool: &mut Vec<Watch>,
    span: &mut Span,
    room: &mut Room,
) -> Result<(), AllocError>
    requires inside { IsInside (length pool.old.items) span.old room.old }
    requires small { length pool.old.items < 4294967296 }
    ensures long { length pool.old.items ≤ length pool.new.items }
    ensures front { (i : ℕ) (d : WatchValue) → i < length pool.old.items → get_or pool.new.items i d ≡ get_or pool.old.items i d }
    ensures small { length pool.new.items < 4294967296 }
    ensures inside { IsInside (length pool.new.items) span.new room.new }
    ensures more { room.old.size ≤ room.new.size }
    ensures ok { OnOk result (room.new.uses ≡ room.old.uses + 1) }
    ensures err { OnErr result (room.new.uses ≡ room.old.uses) }
    ensures place { ((span.new.start ≡ span.old.start) × (room.new.size ≡ room.old.size)) ⊎ (span.new.start ≡ length pool.old.items) }
    ensures entries { entries_of pool.new.items span.new ≡ entries_of pool.old.items span.old }
{
    if room.uses == room.size {
        move_to_end(pool, span, room)?;
    }
    room.uses += 1;
    Ok(())
}
