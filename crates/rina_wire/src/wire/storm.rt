//! What a storm does with the frames of a wire.
ghost use Rattle.std.specs.Prelude.{◌≡◌, ◌+◌, ◌<◌, ◌^◌, IfOk};
ghost use Rattle.rina_draws.specs.Storm.{IsWithin};
ghost use Rattle.rina_stack.specs.Rules.{spread_of};
ghost use Rattle.rina_wire.specs.Storm.{draws_at, fate_under};

use rand_pcg::Lcg64Xsh32;
use rina_base::{Memory, Storm};
use rina_draws::{Fate, draw_fate, seeded};

/// The generator of a wire that has accepted no frame yet.
pub fn first_draws(storm: Option<Storm>) -> Lcg64Xsh32
    ensures { result ≡ draws_at storm 0 }
{
    match storm {
        Some(storm) => seeded(storm.seed),
        None => seeded(0),
    }
}

/// Another generator, which goes on as this one.
pub fn same_draws(draws: &Lcg64Xsh32) -> Result<Lcg64Xsh32, Memory>
    ensures { IfOk result (λ g. g ≡ draws.now) }
{
    Ok(draws.clone()?)
}

/// Draws what becomes of the next frame. Without a storm nothing is drawn, and the frame arrives once, in time.
pub fn next_fate(storm: Option<Storm>, draws: &mut Lcg64Xsh32) -> Fate
    requires { spread_of storm + 1 < 2 ^ 32 }
    ensures fate { result ≡ (fate_under storm draws.old).0 }
    ensures after { draws.new ≡ (fate_under storm draws.old).1 }
    ensures within { IsWithin (spread_of storm) result }
{
    match storm {
        Some(storm) => draw_fate(storm, draws),
        None => Fate::Sent {
            late: 0,
            copy: None,
        },
    }
}
