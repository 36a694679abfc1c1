//! A ring of eight members is parted in two, each part goes on, and new links join the parts again.
use rina_access::Rules;
use rina_agent::{Agent, Link, ManagementMessage, MemberState, link_state, numbered};
use rina_base::{Addr, AppName, Memory, Name, NameError, Seq, Tick};
use rina_newest::{Item, Newest, Version};
use std::alloc::Global;

/// The names of the nodes, each a letter. The members on them have the addresses 1 to 8.
const NODES: &[u8] = b"abcdefgh";

/// Each item that a member keeps when all messages were handled: who keeps it, its key, the tick, the count and the origin
/// of its version, and its value, where a dash is a deletion. All keep it at the start (s); members 1 to 4 after the ring was
/// parted (a), and after entries were made (A); members 5 to 8 likewise (b, B); all when the ring is whole again (w).
const ITEMS: &[u8] = b"\
saAbBw /member/1 0 0 1 a|\
saAbBw /member/2 0 0 2 b|\
saAbBw /member/3 0 0 3 c|\
saAbBw /member/4 0 0 4 d|\
saAbBw /member/5 0 0 5 e|\
saAbBw /member/6 0 0 6 f|\
saAbBw /member/7 0 0 7 g|\
saAbBw /member/8 0 0 8 h|\
s--bB- /link/1 0 0 1 2:1,8:1|\
-aA--- /link/1 1 1 1 2:1|\
-----w /link/1 4 2 1 2:1,8:1|\
saAbBw /link/2 0 0 2 1:1,3:1|\
saAbBw /link/3 0 0 3 2:1,4:1|\
s--bB- /link/4 0 0 4 3:1,5:1|\
-aA--- /link/4 1 1 4 3:1|\
-----w /link/4 4 2 4 3:1,5:1|\
saA--- /link/5 0 0 5 4:1,6:1|\
---bB- /link/5 1 1 5 6:1|\
-----w /link/5 4 2 5 4:1,6:1|\
saAbBw /link/6 0 0 6 5:1,7:1|\
saAbBw /link/7 0 0 7 6:1,8:1|\
saA--- /link/8 0 0 8 1:1,7:1|\
---bB- /link/8 1 1 8 7:1|\
-----w /link/8 4 2 8 1:1,7:1|\
--A--w /dir/echo 2 1 2 2|\
--A--- /dir/news 2 1 3 3|\
----Bw /dir/news 3 2 6 -";

/// The order in which messages are handled.
#[derive(Clone, Copy)]
enum Order {
    /// One of each end of a link by turns, round the ring.
    Ahead,
    /// The same, the other way round.
    Back,
    /// Those of the first end at which any waits.
    First,
}

static ORDERS: [Order; 3] = [Order::Ahead, Order::Back, Order::First];

/// What is done before messages are handled.
#[derive(Clone, Copy)]
enum Deed {
    /// Each member gets the items of the start.
    Start,
    /// The link between members 4 and 5 and that between members 8 and 1 are lost.
    Part,
    /// Members of each part make entries, and one deletes its own.
    Write,
    /// Member 4 joins at member 5, and member 1 at member 8. So what the first part keeps goes to the other as items of joiners,
    /// and what the other keeps comes as items of the members at which they join.
    Join,
}

/// A deed, and what is so after it when no message waits any more.
#[derive(Clone, Copy)]
struct Step {
    deed: Deed,
    /// The tick at which messages are handled.
    now: Tick,
    /// What members 1 to 4 keep, and what members 5 to 8 keep.
    keep: [u8; 2],
    /// The greatest number of messages that may be handled.
    most: usize,
}

/// In a part each item goes over each of the three links once: four link states, and four entries. An enrolment has six
/// messages, and at most 18 items each way. When the parts are joined, three items of each are news to the four members of
/// the other, who pass each on over one link at most. Each of four new link states is sent on two links by its maker, and on one at most by
/// each of the other seven. That makes 2 * (6 + 2 * 18) + 2 * 3 * 4 + 4 * (2 + 7).
static STEPS: [Step; 4] = [
    Step {
        deed: Deed::Start,
        now: 0,
        keep: [b's', b's'],
        most: 0,
    },
    Step {
        deed: Deed::Part,
        now: 1,
        keep: [b'a', b'b'],
        most: 12,
    },
    Step {
        deed: Deed::Write,
        now: 3,
        keep: [b'A', b'B'],
        most: 12,
    },
    Step {
        deed: Deed::Join,
        now: 4,
        keep: [b'w', b'w'],
        most: 144,
    },
];

/// The address of the member at a place of the ring, counted from 0.
fn address(place: usize) -> Addr {
    (place % 8) as u32 + 1
}

/// The number of the link at an end. Ends `2 * place` and `2 * place + 1` are those of the member at a place: its link 0
/// back, and its link 1 ahead.
fn link(end: usize) -> u16 {
    (end % 2) as u16
}

/// The other end of a link.
fn across(end: usize) -> usize {
    if end % 2 == 1 {
        (end % 16 + 1) % 16
    } else {
        (end % 16 + 15) % 16
    }
}

/// The link at an end at the start.
fn link_at(end: usize) -> Link {
    Link {
        number: link(end),
        peer: Some(address(across(end) / 2)),
        weight: 1,
        up: true,
        enrolment: None,
    }
}

/// The links of a member at the start.
fn links(alloc: Global, place: usize) -> Result<Seq<Link>, Memory> {
    let mut links = Seq::new(alloc);
    links.push(link_at(2 * (place % 8)))?;
    links.push(link_at(2 * (place % 8) + 1))?;
    Ok(links)
}

/// The text of the link state of a member at the start.
fn neighbours(alloc: Global, place: usize) -> Result<Vec<u8>, Memory> {
    let links = links(alloc, place)?;
    Ok(link_state(alloc, links.as_slice(), None)?)
}

/// Takes an item of the start: its key is an address behind a text.
fn keep(alloc: Global, items: &mut Newest, text: &[u8], origin: Addr, value: &[u8]) -> bool {
    let version = Version {
        tick: 0,
        count: 0,
        origin,
    };
    match numbered(alloc, text, u64::from(origin)) {
        Ok(key) => items.take(alloc, key.as_slice(), version, Some(value)) == Ok(true),
        Err(_) => false,
    }
}

/// Takes the two items that a member makes at the start.
fn keep_both(alloc: Global, items: &mut Newest, place: usize, node: u8) -> bool {
    match neighbours(alloc, place) {
        Ok(text) => {
            keep(alloc, items, b"/member/", address(place), &[node])
                && keep(alloc, items, b"/link/", address(place), text.as_slice())
        }
        Err(Memory) => false,
    }
}

/// Takes the items of the start.
fn keep_all(alloc: Global, items: &mut Newest) -> bool {
    for (place, node) in NODES.iter().enumerate() {
        if !keep_both(alloc, items, place, *node) {
            return false;
        }
    }
    true
}

/// The names of the member on a node, and of the node.
fn names(alloc: Global, node: u8) -> Result<(AppName, Name), NameError> {
    let name = AppName::read(alloc, &[b'd', b'/', node])?;
    Ok((name, Name::read(alloc, &[node])?))
}

/// Adds a member of the DIF d, which knows no item yet.
fn add_member(alloc: Global, ring: &mut Vec<Agent>, place: usize, node: u8) -> Option<()> {
    let rules = Rules::new(alloc, &[], true).ok()?;
    let links = links(alloc, place).ok()?;
    let (name, node) = names(alloc, node).ok()?;
    let items = Newest::new(alloc);
    let member = Agent::enrolled(alloc, address(place), name, node, rules, items, links);
    ring.push(member).ok()
}

/// Adds the members of the DIF d, which are in a ring and know no items yet.
fn add_members(alloc: Global, ring: &mut Vec<Agent>) -> bool {
    for (place, node) in NODES.iter().enumerate() {
        if add_member(alloc, ring, place, *node).is_none() {
            return false;
        }
    }
    true
}

/// Gives each member the items of the start.
fn start(alloc: Global, ring: &mut [Agent]) -> bool {
    for agent in ring {
        if !keep_all(alloc, &mut agent.items) {
            return false;
        }
    }
    true
}

/// Takes the first message that waits at an end of a link.
fn taken(alloc: Global, ring: &mut [Agent], end: usize) -> Option<ManagementMessage> {
    let agent = ring.get_mut(end / 2)?;
    let first = agent.next_message(link(end))?;
    let message = first.message.copy(alloc).ok()?;
    agent.take_message(link(end));
    Some(message)
}

fn is_member(agent: &Agent) -> bool {
    agent.state == MemberState::Enrolled
}

/// Whether the member at an end handles a message of its neighbour, and stays a member.
fn handles(
    alloc: Global,
    now: Tick,
    ring: &mut [Agent],
    end: usize,
    message: &ManagementMessage,
) -> bool {
    let Some(to) = ring.get_mut(end / 2) else {
        return false;
    };
    match message {
        ManagementMessage::ToNeighbour(m) => {
            to.handle(alloc, now, link(end), m).is_ok() && is_member(to)
        }
        _ => true,
    }
}

/// Whether the first message that waits at an end is handled at the other one.
fn delivers(alloc: Global, now: Tick, ring: &mut [Agent], end: usize) -> bool {
    match taken(alloc, ring, end) {
        Some(message) => handles(alloc, now, ring, across(end), &message),
        None => false,
    }
}

/// Whether a message waits at an end.
fn waits(ring: &[Agent], end: usize) -> bool {
    match ring.get(end / 2) {
        Some(agent) => agent.next_message(link(end)).is_some(),
        None => false,
    }
}

/// The end that has the turn when so many others were passed over, after the one at which a message was handled last.
fn turn(order: Order, last: usize, passed: usize) -> usize {
    match order {
        Order::Ahead => (last % 16 + passed % 16 + 1) % 16,
        Order::Back => (last % 16 + 31 - passed % 16) % 16,
        Order::First => passed % 16,
    }
}

/// The end at which a message is handled next.
fn chosen(ring: &[Agent], order: Order, last: usize) -> Option<usize> {
    for passed in 0..16 {
        let end = turn(order, last, passed);
        if waits(ring, end) {
            return Some(end);
        }
    }
    None
}

/// Whether no message waits any more after so many were handled at most.
fn settles(alloc: Global, ring: &mut [Agent], order: Order, step: &Step) -> bool {
    let mut last = 0;
    for _ in 0..step.most {
        let Some(end) = chosen(ring, order, last) else {
            return true;
        };
        if !delivers(alloc, step.now, ring, end) {
            return false;
        }
        last = end;
    }
    chosen(ring, order, last).is_none()
}

/// Whether the member at an end claims the link there.
fn claims(alloc: Global, ring: &mut [Agent], end: usize) -> bool {
    match ring.get_mut(end / 2) {
        Some(member) => member.claim(alloc, link(end)).is_ok(),
        None => false,
    }
}

/// Whether the member at an end begins to join at the member of these names, and stays a member.
fn enrols(alloc: Global, ring: &mut [Agent], end: usize, name: &AppName, node: &Name) -> bool {
    match ring.get_mut(end / 2) {
        Some(joiner) => { joiner.enrol(alloc, link(end), name, node).is_ok() && is_member(joiner) }
        None => false,
    }
}

/// Whether the member at an end joins on a new link at the one across, on this node, and stays a member.
fn joins(alloc: Global, ring: &mut [Agent], end: usize, node: u8) -> bool {
    match names(alloc, node) {
        Ok((name, node)) => {
            claims(alloc, ring, across(end)) && enrols(alloc, ring, end, &name, &node)
        }
        Err(_) => false,
    }
}

/// Whether the member at an end loses the link there.
fn loses(alloc: Global, ring: &mut [Agent], end: usize) -> bool {
    match ring.get_mut(end / 2) {
        Some(agent) => agent.lose_link(alloc, 1, link(end)).is_ok(),
        None => false,
    }
}

/// Whether the member at an end makes an entry, or deletes it.
fn makes(
    alloc: Global,
    ring: &mut [Agent],
    end: usize,
    now: Tick,
    key: &[u8],
    value: Option<&[u8]>,
) -> bool {
    match ring.get_mut(end / 2) {
        Some(agent) => agent.make_item(alloc, now, key, value).is_ok(),
        None => false,
    }
}

fn part(alloc: Global, ring: &mut [Agent]) -> bool {
    loses(alloc, ring, 7)
        && loses(alloc, ring, 8)
        && loses(alloc, ring, 15)
        && loses(alloc, ring, 0)
}

/// Members 2 and 3 make an entry each. Member 6 makes one under the same key as member 3, and deletes it.
fn write(alloc: Global, ring: &mut [Agent]) -> bool {
    makes(alloc, ring, 2, 2, b"/dir/echo", Some(b"2"))
        && makes(alloc, ring, 4, 2, b"/dir/news", Some(b"3"))
        && makes(alloc, ring, 10, 2, b"/dir/news", Some(b"6"))
        && makes(alloc, ring, 10, 3, b"/dir/news", None)
}

/// Whether what is done before messages are handled is done.
fn acts(alloc: Global, ring: &mut [Agent], deed: Deed) -> bool {
    match deed {
        Deed::Start => start(alloc, ring),
        Deed::Part => part(alloc, ring),
        Deed::Write => write(alloc, ring),
        Deed::Join => joins(alloc, ring, 7, b'e') && joins(alloc, ring, 0, b'h'),
    }
}

/// Writes a number behind a space.
fn push_number(alloc: Global, text: &mut Vec<u8>, number: u32) -> bool {
    match numbered(alloc, b" ", u64::from(number)) {
        Ok(word) => text.extend_from_slice(word.as_slice()).is_ok(),
        Err(_) => false,
    }
}

/// Writes an item as a line of the table has it.
fn push_item(alloc: Global, text: &mut Vec<u8>, item: &Item) -> bool {
    text.extend_from_slice(item.key.as_slice()).is_ok()
        && push_number(alloc, text, item.version.tick)
        && push_number(alloc, text, item.version.count)
        && push_number(alloc, text, item.version.origin)
        && text.extend_from_slice(b" ").is_ok()
        && text.extend_from_slice(item.live().unwrap_or(b"-")).is_ok()
}

/// The item of a line of the table, where it is kept.
fn item_in(line: &[u8], keep: u8) -> Option<&[u8]> {
    if line.len() > 7 && line[..6].contains(&keep) {
        Some(&line[7..])
    } else {
        None
    }
}

fn is_bar(byte: &u8) -> bool {
    *byte == b'|'
}

/// Whether an item of the table that is kept is written so.
fn is_line(text: &[u8], keep: u8) -> bool {
    for line in ITEMS.split(is_bar) {
        if item_in(line, keep) == Some(text) {
            return true;
        }
    }
    false
}

/// The number of items of the table that are kept.
fn count(keep: u8) -> usize {
    let mut count = 0_usize;
    for line in ITEMS.split(is_bar) {
        if item_in(line, keep).is_some() {
            count = count.saturating_add(1);
        }
    }
    count
}

fn is_listed(alloc: Global, item: &Item, keep: u8) -> bool {
    let mut text = Vec::new(alloc);
    push_item(alloc, &mut text, item) && is_line(text.as_slice(), keep)
}

/// Whether these are the items of the table that are kept, and no others. Their keys are not the same.
fn are_kept(alloc: Global, items: &[Item], keep: u8) -> bool {
    for item in items {
        if !is_listed(alloc, item, keep) {
            return false;
        }
    }
    items.len() == count(keep)
}

/// Whether a member keeps what it is to.
fn keeps(alloc: Global, agent: &Agent, keep: u8) -> bool {
    match agent.items.since(alloc, 0) {
        Ok(items) => are_kept(alloc, items.as_slice(), keep),
        Err(Memory) => false,
    }
}

/// Whether a member keeps the text of its links that are up now under a key.
fn keeps_links(alloc: Global, agent: &Agent, key: &[u8]) -> bool {
    match link_state(alloc, agent.links.as_slice(), None) {
        Ok(text) => agent.items.get(key) == Some(text.as_slice()),
        Err(_) => false,
    }
}

/// Whether the link state that a member keeps of itself names its links that are up now.
fn names_its_links(alloc: Global, agent: &Agent) -> bool {
    match numbered(alloc, b"/link/", u64::from(agent.address)) {
        Ok(key) => keeps_links(alloc, agent, key.as_slice()),
        Err(_) => false,
    }
}

/// Whether each member keeps what it is to, and tells its links.
fn agree(alloc: Global, ring: &[Agent], keep: [u8; 2]) -> bool {
    for (place, agent) in ring.iter().enumerate() {
        let keep = if place < 4 { keep[0] } else { keep[1] };
        if !keeps(alloc, agent, keep) || !names_its_links(alloc, agent) {
            return false;
        }
    }
    true
}

/// Whether each step goes as it is to.
fn each_goes(alloc: Global, ring: &mut [Agent], order: Order) -> bool {
    for step in &STEPS {
        if !acts(alloc, ring, step.deed)
            || !settles(alloc, ring, order, step)
            || !agree(alloc, ring, step.keep)
        {
            return false;
        }
    }
    true
}

/// Whether each step of a new ring does.
fn ring_goes(alloc: Global, order: Order) -> bool {
    let mut ring = Vec::new(alloc);
    add_members(alloc, &mut ring) && each_goes(alloc, &mut ring, order)
}

/// Whether it does in each order.
fn all_go(alloc: Global) -> bool {
    for order in &ORDERS {
        if !ring_goes(alloc, *order) {
            return false;
        }
    }
    true
}

#[test]
fn a_ring_that_was_parted_agrees_again(rt: HostRuntime) {
    assert!(rt; all_go(rt.alloc()));
}
