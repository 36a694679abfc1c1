//! Enrolments between two members, message by message.
use rina_access::Rules;
use rina_agent::{Agent, ManagementMessage, MemberState, first_items};
use rina_base::{AppName, Name, NameError, Seq};
use std::alloc::Global;

/// The names of the member on a node, and of the node.
fn names(alloc: Global, name: &[u8], node: &[u8]) -> Result<(AppName, Name), NameError> {
    let name = AppName::read(alloc, name)?;
    Ok((name, Name::read(alloc, node)?))
}

/// Adds the first member of the DIF d, on node a with address 1; who may enrol is the default.
fn add_first(alloc: Global, both: &mut Vec<Agent>, default: bool) -> Option<()> {
    let rules = Rules::new(alloc, &[], default).ok()?;
    let (name, node) = names(alloc, b"d/a", b"a").ok()?;
    let items = first_items(alloc, 1, &node).ok()?;
    let member = Agent::enrolled(alloc, 1, name, node, rules, items, Seq::new(alloc));
    both.push(member).ok()
}

/// Adds an IPC process on node b with address 2, which is no member yet.
fn add_outsider(alloc: Global, both: &mut Vec<Agent>) -> Option<()> {
    let rules = Rules::new(alloc, &[], true).ok()?;
    let (name, node) = names(alloc, b"d/b", b"b").ok()?;
    both.push(Agent::outside(alloc, 2, name, node, rules)).ok()
}

/// Whether it begins to join at node a.
fn begins(alloc: Global, joiner: &mut Agent) -> bool {
    match names(alloc, b"d/a", b"a") {
        Ok((member, node)) => joiner.enrol(alloc, 0, &member, &node).is_ok(),
        Err(_) => false,
    }
}

/// Whether the other end handles what waits for link 0.
fn delivers(alloc: Global, from: &mut Agent, to: &mut Agent) -> bool {
    for _ in 0..20 {
        let Some(first) = from.next_message(0) else {
            return true;
        };
        if let ManagementMessage::ToNeighbour(m) = &first.message {
            if to.handle(alloc, 3, 0, m).is_err() {
                return false;
            }
        }
        from.take_message(0);
    }
    true
}

/// Whether both ends handle what waits, until nothing does.
fn settle(alloc: Global, member: &mut Agent, joiner: &mut Agent) -> bool {
    for _ in 0..8 {
        if !delivers(alloc, member, joiner) || !delivers(alloc, joiner, member) {
            return false;
        }
    }
    true
}

/// Whether nothing waits for link 0.
fn is_quiet(agent: &Agent) -> bool {
    agent.next_message(0).is_none()
}

fn is_kept(agent: &Agent, key: &[u8], value: &[u8]) -> bool {
    agent.items.get(key) == Some(value)
}

fn knows_all(agent: &Agent) -> bool {
    is_kept(agent, b"/member/1", b"a")
        && is_kept(agent, b"/member/2", b"b")
        && is_kept(agent, b"/link/1", b"2:1")
        && is_kept(agent, b"/link/2", b"1:1")
}

/// Whether an agent is a member that knows all, made so many versions of items and sent so many requests, and has nothing to send.
fn is_settled(agent: &Agent, count: u32, invoke: u32) -> bool {
    agent.state == MemberState::Enrolled
        && knows_all(agent)
        && is_quiet(agent)
        && agent.last_count == count
        && agent.last_invoke == invoke
}

fn is_joining(agent: &Agent) -> bool {
    agent.state == MemberState::Joining { link: 0 }
}

fn is_denied(agent: &Agent) -> bool {
    agent.state == MemberState::Denied { rule: 0 } && agent.items.get(b"/member/1").is_none()
}

/// Whether an agent is no member, and has no link and nothing to send.
fn is_outside(agent: &Agent) -> bool {
    agent.state == MemberState::Outside && is_quiet(agent) && agent.links.len() == 0
}

/// Whether the first member has no link, says so in its second version of an item, and has nothing to send.
fn is_alone(agent: &Agent) -> bool {
    is_kept(agent, b"/link/1", b"")
        && agent.last_count == 2
        && agent.links.len() == 0
        && is_quiet(agent)
}

/// What happens to a joiner.
#[derive(Clone, Copy)]
enum Case {
    /// It is enrolled, and both know all.
    Enrolled,
    /// It is enrolled. An item of the member is flooded, and not sent back.
    Flooded,
    /// The rules deny it.
    Denied,
    /// It loses the link while it joins.
    LostByJoiner,
    /// It is enrolled, and the member loses the link.
    LostByMember,
}

static CASES: [Case; 5] = [
    Case::Enrolled,
    Case::Flooded,
    Case::Denied,
    Case::LostByJoiner,
    Case::LostByMember,
];

/// Whether an item that the member makes is sent to the joiner, which keeps it and sends nothing.
fn floods(alloc: Global, member: &mut Agent, joiner: &mut Agent) -> bool {
    member.make_item(alloc, 5, b"/dir/echo", Some(b"1")).is_ok()
        && !is_quiet(member)
        && delivers(alloc, member, joiner)
        && is_kept(joiner, b"/dir/echo", b"1")
        && is_quiet(joiner)
}

/// Whether the member is alone when it loses the link.
fn stays_alone(alloc: Global, member: &mut Agent) -> bool {
    member.lose_link(alloc, 9, 0).is_ok() && is_alone(member)
}

/// Whether a joiner that loses its link is outside again.
fn leaves(alloc: Global, joiner: &mut Agent) -> bool {
    is_joining(joiner) && joiner.lose_link(alloc, 4, 0).is_ok() && is_outside(joiner)
}

/// Whether all is so after a case that both ends settled.
fn ends(alloc: Global, case: Case, member: &mut Agent, joiner: &mut Agent) -> bool {
    match case {
        Case::Flooded => floods(alloc, member, joiner),
        Case::Denied => is_denied(joiner) && member.last_count == 0,
        Case::LostByMember => stays_alone(alloc, member),
        _ => is_settled(member, 1, 1) && is_settled(joiner, 2, 2),
    }
}

/// Whether a case of a joiner goes as it is to.
fn goes_on(alloc: Global, case: Case, member: &mut Agent, joiner: &mut Agent) -> bool {
    if !begins(alloc, joiner) {
        return false;
    }
    if matches!(case, Case::LostByJoiner) {
        return leaves(alloc, joiner);
    }
    member.claim(alloc, 0).is_ok()
        && settle(alloc, member, joiner)
        && ends(alloc, case, member, joiner)
}

/// Whether a case of a member and one that is none yet goes as it is to.
fn both_go(alloc: Global, case: Case, both: &mut [Agent]) -> bool {
    match both {
        [member, joiner] => goes_on(alloc, case, member, joiner),
        _ => false,
    }
}

/// Whether a case goes as it is to.
fn goes(alloc: Global, case: Case) -> bool {
    let mut both = Vec::new(alloc);
    add_first(alloc, &mut both, !matches!(case, Case::Denied)).is_some()
        && add_outsider(alloc, &mut both).is_some()
        && both_go(alloc, case, &mut both)
}

/// Whether each case does.
fn all_go(alloc: Global) -> bool {
    for case in &CASES {
        if !goes(alloc, *case) {
            return false;
        }
    }
    true
}

#[test]
fn each_joiner_ends_as_its_case_says(rt: HostRuntime) {
    assert!(rt; all_go(rt.alloc()));
}
