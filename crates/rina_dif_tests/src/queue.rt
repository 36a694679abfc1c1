//! A link with two cubes, served by a policy of a shelf.
ghost use Rattle.std.specs.Prelude.{◌≡◌, IfOk};

use rina_base::{Memory, Name, Pdu, PduKind, Seq};
use rina_policy::{Last, Shelf};
use rina_queue::{Queue, QueueFull, Queued, Queues};
use std::alloc::Global;

/// A piece of some bytes, queued at a tick.
fn queued(alloc: Global, qos: u8, since: u32) -> Result<Queued, Memory>
    ensures { IfOk result (λ q. q.pdu.qos ≡ qos) }
{
    let pdu = Pdu {
        kind: PduKind::Piece,
        dst: 2,
        src: 1,
        qos,
        dcep: 1,
        scep: 1,
        drf: false,
        first: true,
        last: true,
        seq: since,
        ack: 0,
        right: 0,
        body: Seq::copy_of(alloc, b"sdu")?,
    };
    Ok(Queued {
        pdu,
        left: 100,
        since,
    })
}

/// What happens to the queues of cubes and links, and to the shelf.
#[derive(Clone, Copy)]
enum Event {
    /// An item of a tick is pushed, for a cube and a link. None is told, or the cap of a queue that is full.
    Push(u8, u16, u32),
    /// A link is served. The tick of the item that is lent is told.
    Serve(u16),
    /// The tick of the item that is taken is told.
    Take(u8, u16),
    /// The room is told.
    Room(u8, u16),
    /// The queues of a link are emptied.
    Empty(u16),
    /// The policy is retired.
    Retire,
}

type Step = (Event, Option<u32>);

/// The policy picks the last, and what is picked is lent and stays; a policy that is retired picks the first.
static SERVED: [Step; 9] = [
    (Event::Serve(0), None),
    (Event::Push(0, 0, 5), None),
    (Event::Serve(0), Some(5)),
    (Event::Push(1, 0, 6), None),
    (Event::Serve(0), Some(6)),
    (Event::Retire, None),
    (Event::Serve(0), Some(5)),
    (Event::Room(1, 0), Some(1)),
    (Event::Take(1, 0), Some(6)),
];

/// The queues of one link are emptied, and those of the other are not.
static EMPTIED: [Step; 5] = [
    (Event::Push(1, 0, 5), None),
    (Event::Push(1, 1, 6), None),
    (Event::Empty(0), None),
    (Event::Take(1, 0), None),
    (Event::Take(1, 1), Some(6)),
];

/// First in, first out, up to the cap.
static FIRST_OUT: [Step; 6] = [
    (Event::Push(1, 0, 5), None),
    (Event::Push(1, 0, 6), None),
    (Event::Push(1, 0, 7), Some(2)),
    (Event::Take(1, 0), Some(5)),
    (Event::Take(1, 0), Some(6)),
    (Event::Take(1, 0), None),
];

fn since_of(item: Option<Queued>) -> Option<u32> {
    Some(item?.since)
}

/// The cap of a queue that is full.
fn cap_of(pushed: Result<(), QueueFull>) -> Option<u32> {
    match pushed {
        Ok(()) => None,
        Err(full) => Some(full.cap),
    }
}

fn pushes(
    alloc: Global,
    queues: &mut Queues,
    qos: u8,
    link: u16,
    since: u32,
    wanted: Option<u32>,
) -> bool {
    if !queues.has(qos, link) {
        return false;
    }
    match queued(alloc, qos, since) {
        Ok(item) => cap_of(queues.push(qos, link, item)) == wanted,
        Err(Memory) => false,
    }
}

fn takes(queues: &mut Queues, qos: u8, link: u16, wanted: Option<u32>) -> bool {
    queues.has(qos, link) && since_of(queues.take(qos, link)) == wanted
}

fn has_room(queues: &Queues, qos: u8, link: u16, wanted: Option<u32>) -> bool {
    queues.has(qos, link) && wanted == Some(queues.room(qos, link))
}

fn served(queues: &Queues, shelf: &mut Shelf, name: &Name, link: u16) -> Option<u32> {
    Some(queues.serve(shelf, name, 0, link)?.since)
}

/// Whether an event tells what is wanted, of queues that the policy of a name serves.
fn tells(alloc: Global, queues: &mut Queues, shelf: &mut Shelf, name: &Name, step: Step) -> bool {
    let (event, wanted) = step;
    match event {
        Event::Push(qos, link, since) => pushes(alloc, queues, qos, link, since, wanted),
        Event::Serve(link) => served(queues, shelf, name, link) == wanted,
        Event::Take(qos, link) => takes(queues, qos, link, wanted),
        Event::Room(qos, link) => has_room(queues, qos, link, wanted),
        Event::Empty(link) => {
            queues.empty(link);
            wanted.is_none()
        }
        Event::Retire => shelf.retire(name).is_ok() && wanted.is_none(),
    }
}

/// Whether links 0 and 1 get a queue for each cube, link 0 once.
fn adds_links(alloc: Global, queues: &mut Queues) -> bool {
    queues.add_link(alloc, 0).is_ok()
        && queues.add_link(alloc, 0).is_ok()
        && queues.add_link(alloc, 1).is_ok()
        && queues.cubes.as_slice() == [0, 1].as_slice()
        && queues.queues.len() == 4
}

/// Whether a shelf takes a policy under a name, which picks the last.
fn adds_last(alloc: Global, shelf: &mut Shelf, name: Name) -> bool {
    match Box::new(alloc, Last::new()) {
        Ok(policy) => shelf.add(alloc, name, policy).is_ok(),
        Err(_) => false,
    }
}

/// Whether queues that the policy of a name serves tell what each step says.
fn tell_all(
    alloc: Global,
    queues: &mut Queues,
    shelf: &mut Shelf,
    name: &Name,
    steps: &[Step],
) -> bool {
    for step in steps {
        if !tells(alloc, queues, shelf, name, *step) {
            return false;
        }
    }
    true
}

/// Whether new queues of two cubes, with a cap of 2, do.
fn new_tell_all(alloc: Global, shelf: &mut Shelf, name: &Name, steps: &[Step]) -> bool {
    match Queues::new(alloc, 2, &[1, 0, 1]) {
        Ok(mut queues) => {
            adds_links(alloc, &mut queues) && tell_all(alloc, &mut queues, shelf, name, steps)
        }
        Err(Memory) => false,
    }
}

/// Whether the queues of each table of steps do.
fn each_tells_all(alloc: Global, shelf: &mut Shelf, name: &Name) -> bool {
    new_tell_all(alloc, shelf, name, &EMPTIED)
        && new_tell_all(alloc, shelf, name, &FIRST_OUT)
        && new_tell_all(alloc, shelf, name, &SERVED)
}

/// Whether they do on a shelf that takes a policy under this name.
fn named_tell_all(alloc: Global, shelf: &mut Shelf, name: &Name) -> bool {
    match name.copy(alloc) {
        Ok(added) => adds_last(alloc, shelf, added) && each_tells_all(alloc, shelf, name),
        Err(Memory) => false,
    }
}

/// Whether they do on a shelf.
fn shelf_tells_all(alloc: Global, shelf: &mut Shelf) -> bool {
    match Name::read(alloc, b"last") {
        Ok(name) => named_tell_all(alloc, shelf, &name),
        Err(_) => false,
    }
}

fn queues_go(alloc: Global) -> bool {
    match Shelf::new(alloc) {
        Ok(mut shelf) => shelf_tells_all(alloc, &mut shelf),
        Err(Memory) => false,
    }
}

/// Whether a queue of cap 2 takes an item where it is one of the first two.
fn fills(alloc: Global, queue: &mut Queue, since: u32) -> bool {
    match queued(alloc, 1, since) {
        Ok(item) => queue.push(2, item).is_ok() == (since < 7),
        Err(Memory) => false,
    }
}

/// Whether the head of a queue is the first of two items.
fn has_first(queue: &mut Queue) -> bool {
    let head = queue.head();
    head.waiting == 2 && head.since == 5 && since_of(queue.take()) == Some(5)
}

/// Whether a queue takes two items and no third one, and its head is its first.
fn queue_goes(alloc: Global, queue: &mut Queue) -> bool {
    fills(alloc, queue, 5) && fills(alloc, queue, 6) && fills(alloc, queue, 7) && has_first(queue)
}

fn new_queue_goes(alloc: Global) -> bool {
    match Queue::new(alloc, 0, 1, 2) {
        Ok(mut queue) => queue_goes(alloc, &mut queue),
        Err(Memory) => false,
    }
}

#[test]
fn queues_are_served_emptied_and_first_in_first_out(rt: HostRuntime) {
    assert!(rt; queues_go(rt.alloc()) && new_queue_goes(rt.alloc()));
}
