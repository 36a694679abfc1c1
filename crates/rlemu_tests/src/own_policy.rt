//! A run whose shelf has a policy of the test's own: it is asked, its answer is followed, and the shelf that comes back
//! has its count.
//!
//! A policy that answers a place behind the heads can't be handed in beside it: the contract of `Policy::pick` asks for
//! a place that is `within` them, so no `impl` of such a policy is accepted.
ghost use Rattle.std.specs.Prelude.{◌≡◌, ◌-◌, length};

use rina_base::Name;
use rina_io::{MemSink, MemSource};
use rina_policy::{Count, Head, Policy, Shelf};
use rina_run::{Status, run};
use std::alloc::Global;
use std::test::Fail;

/// Answers the last place, and keeps its count.
#[derive(Drop)]
struct Back {
    count: Count,
}

impl Policy for Back {
    ghost count = { λ s. s.count };

    ghost may_pick = { λ _ _ heads place. place ≡ length heads - 1 };

    fn pick(&mut self, _who: u32, heads: &[Head]) -> u32 {
        let place = heads.len() as u32 - 1;
        self.count.note(place);
        place
    }

    fn picks(&self) -> u64 {
        self.count.picks
    }

    fn last(&self) -> u32 {
        self.count.last
    }
}

/// Three flows of one link, and lines that make PDUs of two of them wait there; the schedule writes every step.
const BACK_FIRST: &str = "nodes = [\"a\", \"b\"]
rounds = \"manual\"
[[wire]]
name = \"w\"
ends = [\"a\", \"b\"]
delay = 2
life = 10
largest = 1500
[[dif]]
name = \"d\"
rank = 1
static = true
pdu = 96
widths = { addr = 1, cep = 1, len = 2, seq = 2 }
queue = 64
policy = \"back\"
wait = 500
manage = { mpl = 40, r = 30, a = 2, retry = 10, window = 8 }
cube = [
  { id = 1, kind = \"datagram\", mpl = 40, window = 16, largest = 80 },
  { id = 2, kind = \"loose\", mpl = 40, window = 16, largest = 240 },
  { id = 3, kind = \"reliable\", mpl = 40, r = 30, a = 2, retry = 10, window = 4, largest = 240 },
]
member = [ { node = \"a\", addr = 1 }, { node = \"b\", addr = 2 } ]
link = [ { on = \"w\", a = \"a\", b = \"b\" } ]
flow = [
  { cube = 1, from = { node = \"a\", app = \"s1\", label = \"p1\" }, to = { node = \"b\", app = \"t1\", label = \"q1\" } },
  { cube = 2, from = { node = \"a\", app = \"s2\", label = \"p2\" }, to = { node = \"b\", app = \"t2\", label = \"q2\" } },
  { cube = 3, from = { node = \"a\", app = \"s3\", label = \"p3\" }, to = { node = \"b\", app = \"t3\", label = \"q3\" } },
]
%%
send p1 'a
send p1 'b
send p2 'c
send p2 'd
out d a 0
";

const BACK_FIRST_NOTES: &str = "1 0 sent 1.0
2 0 sent 1.1
3 0 sent 2.0
4 0 sent 2.1
5 0 out data 1.2.0
end 0
";

/// What the test looks at of a run with the policy.
#[derive(Drop)]
struct Ended {
    status: Status,
    written: Vec<u8>,
    /// How often the policy was asked, and the place that it answered last; None where it was retired.
    asked: Option<(u64, u32)>,
}

/// How often the policy in the first place of a shelf was asked, and the place that it answered last.
fn asked_of(shelf: &Shelf) -> Option<(u64, u32)> {
    let place = shelf.places.get(0)?;
    let policy = place.policy.as_ref()?;
    Some((policy.picks(), policy.last()))
}

/// Runs the lines with a shelf that has this policy alone.
fn ended_of(alloc: Global, back: Back) -> Result<Ended, Fail> {
    let mut shelf = Shelf::new(alloc)?;
    shelf.add(alloc, Name::read(alloc, b"back")?, Box::new(alloc, back)?)?;
    let mut words = Vec::new(alloc);
    words.push(String::from_str(alloc, "run")?)?;
    let mut source = MemSource::new(BACK_FIRST.as_bytes().to_vec(alloc)?, Vec::new(alloc));
    let mut sink = MemSink::new(Vec::new(alloc), Vec::new(alloc));
    let outcome = run(alloc, words.as_slice(), &mut source, &mut sink, shelf);
    Ok(Ended {
        status: outcome.status,
        written: sink.bytes().to_vec(alloc)?,
        asked: asked_of(&outcome.shelf),
    })
}

#[test]
fn a_policy_of_its_own_is_asked_and_followed(rt: HostRuntime) -> Result<(), Fail> {
    let back = Back {
        count: Count::new(),
    };
    let ended = ended_of(rt.alloc(), back)?;
    assert_eq!(rt; ended.status, Status::Done);
    assert_eq!(rt; ended.written.as_slice(), BACK_FIRST_NOTES.as_bytes());
    // Of the heads of two queues it picked the last, once.
    assert_eq!(rt; ended.asked, Some((1, 1)));
    Ok(())
}
