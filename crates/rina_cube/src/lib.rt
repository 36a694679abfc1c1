//! QoS cubes: what a flow promises, and which cube a wish gets.
#![tactic(auto)]

ghost use Rattle.std.specs.Prelude.{◌≡◌, ◌<◌, position, length, IfSome};
ghost use Rattle.rina_cube.specs.Cubes.{promise_of, delta_of, fits, picked, IsCube};

/// How a flow orders its SDUs, and which gaps it allows.
#[derive(Clone, Copy, Debug, PartialEq, Eq)]
pub enum Kind {
    /// In any order, with any gap; each SDU at most once.
    Datagram,
    /// In order, with any gap.
    Loose,
    /// In order and with no gap; lost pieces are sent again.
    Reliable,
}

/// A QoS cube of a DIF. The times are in ticks, 1 to 1,000,000; `r`, `a` and `retry` are 0 on a cube
/// that is not reliable, and `1 <= retry <= r` on one that is (Watson's delta-t).
#[derive(Clone, Copy, Debug, PartialEq, Eq)]
pub struct Cube {
    /// Its QoS-id, 1 to 255; 0 is that of management.
    pub id: u8,
    pub kind: Kind,
    /// Maximum PDU lifetime, in ticks.
    pub mpl: u32,
    /// How long a piece may be sent again, in ticks after it was first sent.
    pub r: u32,
    /// How long an acknowledgement may be held back, in ticks.
    pub a: u32,
    /// How long a piece waits before it is sent again, in ticks.
    pub retry: u32,
    /// How many pieces may be sent ahead, and how many SDUs may wait to be read: 1 to 256.
    pub window: u32,
    /// The largest SDU, in bytes: 1 to 65,535.
    pub largest: u32,
}

/// What an application wants of a flow.
#[derive(Clone, Copy, Debug, PartialEq, Eq)]
pub struct Want {
    pub ordered: bool,
    pub reliable: bool,
    /// The promise, in ticks, may be at most this.
    pub within: u32,
    /// The largest SDU, in bytes, has to be at least this.
    pub size: u32,
}

impl Cube {
    /// How many ticks may pass at most from the acceptance of an SDU to its delivery.
    pub fn promise(&self) -> u32
        requires { IsCube self.now }
        ensures { result ≡ promise_of self.now }
    {
        match self.kind {
            Kind::Datagram | Kind::Loose => self.mpl,
            Kind::Reliable => self.r + self.mpl,
        }
    }

    /// The promise of any numbers, also of those that no cube has.
    fn promise_in_full(&self) -> u64
        ensures { result ≡ promise_of self.now }
    {
        match self.kind {
            Kind::Datagram | Kind::Loose => u64::from(self.mpl),
            Kind::Reliable => u64::from(self.r) + u64::from(self.mpl),
        }
    }

    /// Delta-t: after twice this many ticks a receiver has no state, after three times this a sender.
    pub fn delta(&self) -> u32
        requires { IsCube self.now }
        ensures { result ≡ delta_of self.now }
    {
        self.mpl + self.r + self.a
    }
}

/// Whether a cube meets a wish.
#[tactic(auto, unfolding(crate::specs::Cubes::fits))]
fn meets(cube: &Cube, want: &Want) -> bool
    ensures { result ≡ fits want.now cube.now }
{
    (!want.ordered || !matches!(cube.kind, Kind::Datagram))
        && (!want.reliable || matches!(cube.kind, Kind::Reliable))
        && cube.promise_in_full() <= u64::from(want.within)
        && cube.largest >= want.size
}

/// The place of the first cube that meets a wish.
fn first_that_meets(cubes: &[Cube], want: &Want) -> Option<usize>
    ensures place { result ≡ position (fits want.now) cubes.now }
    ensures within { IfSome result (λ i. i < length cubes.now) }
{
    cubes.iter().position(|cube| meets(cube, want))
}

/// The id of the first cube that meets a wish; None exactly where none does. Takes no memory.
pub fn pick(cubes: &[Cube], want: &Want) -> Option<u8>
    ensures { result ≡ picked cubes.now want.now }
{
    let at = first_that_meets(cubes, want)?;
    Some(cubes.get(at)?.id)
}
