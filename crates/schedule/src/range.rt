ghost use Rattle.std.specs.Prelude.{◌↔◌, IsTrue};
ghost use Rattle.schedule.specs.Sends.{IsInRange};

use crate::schedule::Schedule;

/// Whether each send has its chunk below `chunks`, and both its nodes below `nodes`.
pub fn in_range(schedule: &Schedule, chunks: u16, nodes: u8) -> bool
    ensures { IsTrue result ↔ IsInRange chunks nodes schedule.now }
{
    schedule.sends().iter().all(|hop| hop.chunk < chunks && hop.from < nodes && hop.to < nodes)
}
