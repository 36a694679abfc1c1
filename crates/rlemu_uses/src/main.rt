//! The crates as a library: an SDU goes over a DIF on a wire, and what came is printed.
#![tactic(auto)]

ghost use Rattle.std.specs.Prelude.{◌≡◌, [], IfOk, MatchOption};
ghost use Rattle.rina_iface.specs.Journal.{AreKept};
ghost use Rattle.rina_iface.specs.Seen.{end_of};
ghost use Rattle.rina_tower.specs.Ranks.{seen_of};

mod stack;

use rina_base::{Name, Port};
use rina_iface::Facility;
use rina_law::Entry;
use rina_policy::{Picks, Shelf, Strict};
use rina_stack::{Policies, read_stack};
use rina_tower::Tower;
use stack::STACK;
use std::alloc::Global;
use std::{io, str};

/// Where `ping` sends: port 1 of node 0, in DIF 0 of its rank.
const PING: Port = Port {
    fac: 0,
    node: 0,
    n: 1,
};

/// Where `echo` receives: port 1 of node 1.
const ECHO: Port = Port {
    fac: 0,
    node: 1,
    n: 1,
};

/// Builds the stack, sends an SDU on the flow that it fixes, and lets 10 ticks go by, with a round before each.
fn carry<P: Policies + Picks>(
    alloc: Global,
    policies: &mut P,
    sdu: &[u8],
) -> Result<Tower, &'static str>
    // What came was sent at the other end, with these bytes, as often, in such order and so soon as the flow's cube says.
    ensures { IfOk result (λ tower. AreKept (seen_of tower)) }
{
    let Ok(plan) = read_stack(alloc, STACK.as_bytes(), policies) else {
        return Err("the stack was not read");
    };
    let Ok(mut tower) = Tower::build(alloc, &plan) else {
        return Err("there is no memory for the tower");
    };
    if tower.app_send(alloc, 1, PING, sdu).is_err() {
        return Err("the SDU was refused");
    }
    for _ in 0..10 {
        if tower.round(alloc, policies).is_err() || tower.tick(alloc).is_err() {
            return Err("there is no memory to go on");
        }
    }
    Ok(tower)
}

/// What came at a port of the top rank; nothing where there is no such port.
fn arrivals(tower: &Tower, port: Port) -> &[Entry]
    ensures { MatchOption (end_of (seen_of tower.now) port) (result.now ≡ []) (λ end. result.now ≡ end.got) }
{
    let Some(journal) = tower.journal(port.fac) else {
        return &[];
    };
    match journal.ends.find(port) {
        Some(end) => end.got.as_slice(),
        None => &[],
    }
}

/// Carries an SDU with the policy that the stack names on a shelf.
fn carry_hello(alloc: Global) -> Result<Tower, &'static str> {
    let Ok(mut shelf) = Shelf::new(alloc) else {
        return Err("there is no memory for the shelf");
    };
    let Ok(name) = Name::read(alloc, b"strict") else {
        return Err("there is no memory for the name");
    };
    let Ok(policy) = Box::new(alloc, Strict::new()) else {
        return Err("there is no memory for the policy");
    };
    if shelf.add(alloc, name, policy).is_err() {
        return Err("there is no memory to add the policy");
    }
    carry(alloc, &mut shelf, b"hello")
}

fn main(rt: HostRuntime) -> io::Result<()> {
    let tower = match carry_hello(rt.alloc()) {
        Ok(tower) => tower,
        Err(why) => return println!(rt; "{why}"),
    };
    for entry in arrivals(&tower, ECHO) {
        let text = str::from_utf8(entry.bytes.as_slice()).unwrap_or("bytes that are no text");
        println!(rt; "At tick {} echo got: {text}", entry.tick)?;
    }
    Ok(())
}
