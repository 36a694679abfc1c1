//! What the hops of a way charge, and what that leaves of a lifetime.
ghost use Rattle.std.specs.Prelude.{◌≡◌, ◌-◌, ◌^◌, min};
ghost use Rattle.rina_way.specs.Ways.{charges, slack_of};

use crate::hop::Hop;

/// What a way leaves of the lifetime of a PDU that waits nowhere.
#[derive(Clone, Copy, Debug, PartialEq, Eq)]
pub enum Slack {
    /// So many ticks are left at the end.
    Left(u32),
    /// The lifetime is so many ticks too short, so that no PDU comes to the end.
    Short(u64),
}

/// What hops charge at least, in ticks; 2^64 - 1 where it is more.
pub fn charges(hops: &[Hop]) -> u64
    ensures { result ≡ min (charges hops.now) (2 ^ 64 - 1) }
{
    let mut total = 0u64;
    'hops: for hop in hops {
        total = total.saturating_add(u64::from(hop.charge));
    }
    total
}

/// What hops leave of a lifetime of `mpl` ticks.
pub fn slack_of(mpl: u32, hops: &[Hop]) -> Slack
    ensures { result ≡ slack_of mpl (charges hops.now) }
{
    let charged = charges(hops);
    let life = u64::from(mpl);
    if charged <= life {
        Slack::Left((life - charged) as u32)
    } else {
        Slack::Short(charged - life)
    }
}
