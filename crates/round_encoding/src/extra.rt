//! The variables of extra rounds.

ghost use Rattle.std.specs.Prelude.{◌≡◌, ◌≤◌};
ghost use Rattle.schedule.specs.Sends.{IsStep};
ghost use Rattle.round_encoding.specs.Frames.{extra_round, own_variables};

use cnf_formula::Lit;
use send_encoding::SendMap;

/// The step has at least so many extra rounds, of so many that it may have.
pub(crate) fn extra_round(map: &SendMap, extra: u8, step: u8, number: u8) -> Lit
    requires few { extra ≤ 8 }
    requires step { IsStep map.now.steps step }
    requires number { IsStep extra number }
    ensures literal { result ≡ extra_round (record { map = map.now; extra = extra }) step number }
    ensures within { result.var ≤ own_variables (record { map = map.now; extra = extra }) }
{
    let own = map.arrivals() + map.sends() + 1;
    Lit::new(
        own + (step as u32 - 1) * extra as u32 + (number as u32 - 1),
        true,
    )
}
