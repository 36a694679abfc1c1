//! Ticks at which nothing happens.
ghost use Rattle.std.specs.Prelude.{◌+◌, ◌<◌, ◌≤◌};
ghost use Rattle.rina_tower.specs.Ranks.{now_of};
ghost use Rattle.rina_tower.specs.Stands.{IsTower};
ghost use Rattle.rina_words.specs.Resting.{IdleTicksPass, RestsBy};

use rina_base::Tick;
use rina_notes::tick_of;
use rina_stack::Rounds;
use rina_tower::Tower;

/// A tick before which nothing happens by itself, where it is after the clock.
fn rests_until(rounds: Rounds, tower: &Tower) -> Tick
    requires { IsTower tower.now }
    ensures { now_of tower.now < result → RestsBy rounds result tower.now }
{
    match rounds {
        Rounds::Auto => tower.rests_until(),
        Rounds::Manual => tower.wires_rest_until(),
    }
}

/// Lets the clock go on at once over ticks at which nothing happens, at most so many, and answers how many these are.
pub fn pass_idle_ticks(rounds: Rounds, tower: &mut Tower, most: u32) -> u32
    requires tower { IsTower tower.old }
    requires clock { now_of tower.old + most ≤ 10_000_000 }
    ensures most { result ≤ most }
    ensures tower { IsTower tower.new }
    ensures passes { IdleTicksPass rounds result tower.old tower.new }
{
    let now = tick_of(tower);
    let until = rests_until(rounds, tower);
    let count = most.min(until.saturating_sub(now + 1));
    if count > 0 {
        tower.rest_to(now + count);
    }
    count
}
