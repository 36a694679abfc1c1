//! Storms: which frames a wire loses, repeats and delays.
ghost use Rattle.std.specs.Prelude.{◌≡◌, ◌+◌, ◌^◌, ◌<◌, ◌≤◌, IfSome};
ghost use Rattle.rina_draws.specs.Storm.{IsWithin, copy_drawn, sent_drawn, fate_drawn};

use crate::draws::draw;
use rand_pcg::Lcg64Xsh32;
use rina_base::Storm;

/// What a storm does with a frame.
#[derive(Clone, Copy, Debug, PartialEq, Eq)]
pub enum Fate {
    /// The frame is lost.
    Lost,
    /// The frame arrives.
    Sent {
        /// Its additional delay, in ticks.
        late: u32,
        /// The additional delay of a copy, where there is one, in ticks.
        copy: Option<u32>,
    },
}

#[tactic(auto, unfolding(crate::specs::Storm::copy_drawn))]
fn draw_copy(storm: Storm, generator: &mut Lcg64Xsh32) -> Option<u32>
    requires { storm.spread + 1 < 2 ^ 32 }
    ensures copy { result ≡ (copy_drawn storm generator.old).0 }
    ensures after { generator.new ≡ (copy_drawn storm generator.old).1 }
    ensures within { IfSome result (λ late. late ≤ storm.spread) }
{
    if draw(generator, 1000) < storm.repeat {
        Some(draw(generator, storm.spread + 1))
    } else {
        None
    }
}

#[tactic(auto, unfolding(crate::specs::Storm::sent_drawn))]
fn draw_sent(storm: Storm, generator: &mut Lcg64Xsh32) -> Fate
    requires { storm.spread + 1 < 2 ^ 32 }
    ensures fate { result ≡ (sent_drawn storm generator.old).0 }
    ensures after { generator.new ≡ (sent_drawn storm generator.old).1 }
    ensures within { IsWithin storm.spread result }
{
    let late = draw(generator, storm.spread + 1);
    let copy = draw_copy(storm, generator);
    Fate::Sent { late, copy }
}

/// Draws what the storm does with a frame that the wire accepts, from the generator that the storm's seed began: one number for a frame that is lost, three for
/// one that arrives once, and four for one that is repeated.
#[tactic(auto, unfolding(crate::specs::Storm::fate_drawn))]
pub fn draw_fate(storm: Storm, generator: &mut Lcg64Xsh32) -> Fate
    requires { storm.spread + 1 < 2 ^ 32 }
    ensures fate { result ≡ (fate_drawn storm generator.old).0 }
    ensures after { generator.new ≡ (fate_drawn storm generator.old).1 }
    ensures within { IsWithin storm.spread result }
{
    if draw(generator, 1000) < storm.lose {
        Fate::Lost
    } else {
        draw_sent(storm, generator)
    }
}
