//! Next hops on a few topologies, worked out by hand.
use rina_base::read_decimal;
use rina_newest::{Newest, Version};
use rina_route::{Link, Routes};
use std::alloc::Global;

/// What is told and asked, line by line. `anew` begins another table of link states and own links. `state` tells a link state:
/// its key, and the addresses of neighbours with the weights of the links to them. `own` tells an own link: its number, the address
/// of its peer, and its weight. `rebuild` makes the next hops anew at an address. `hop` is an address and the link of the next hop
/// to it, or a dash.
const LINES: &str = "\
# a ring of four with parallel links
state /link/1 2:1,2:1,4:1
state /link/2 1:1,1:1,3:1
state /link/3 2:1,4:1
state /link/4 1:1,3:1
own 0 4 1
own 1 2 1
own 2 2 1
hop 2 -
rebuild 1
hop 1 -
hop 2 1
hop 3 1
hop 4 0
hop 5 -
# a line of four and one apart
anew
state /link/7 9:5
state /link/9 7:5,8:1
state /link/8 9:1,70:2
state /link/70 8:2
state /link/6
own 3 7 5
rebuild 9
hop 7 3
hop 70 -
own 4 8 1
rebuild 9
hop 7 3
hop 70 4
hop 6 -
# a link that one end claims does not count: 3 names 2 no more, and 4 names 2 at another weight
anew
state /link/1 2:1
state /link/2 1:1,3:1,4:1
state /link/3 5:1
state /link/4 2:2
state /link/5 3:1
own 0 2 1
rebuild 1
hop 2 0
hop 3 -
hop 4 -
hop 5 -
# nor does the own claim alone
anew
state /link/1 2:1
state /link/2
own 0 2 1
rebuild 1
hop 2 -
# nor that of the neighbour alone
anew
state /link/1
state /link/2 1:1
own 0 2 1
rebuild 1
hop 2 -
# an own link counts where it is up, at the weight that both claim
anew
state /link/1 2:3
state /link/2 1:3
rebuild 1
hop 2 -
own 0 2 1
rebuild 1
hop 2 -
own 7 2 3
rebuild 1
hop 2 7";

/// The link states and the own links that a member knows, and its next hops.
#[derive(Drop)]
struct Known {
    states: Newest,
    links: Vec<Link>,
    routes: Routes,
}

/// A word that is a number of 32 bits.
fn number(word: Option<&str>) -> Option<u32> {
    let number = read_decimal(4_294_967_295, word?.as_bytes())?;
    Some(number as u32)
}

/// A word that is a number of 16 bits.
fn small(word: Option<&str>) -> Option<u16> {
    let number = read_decimal(65_535, word?.as_bytes())?;
    Some(number as u16)
}

/// An own link of a line.
fn link_of(number: Option<u16>, peer: Option<u32>, weight: Option<u16>) -> Option<Link> {
    Some(Link {
        number: number?,
        peer: peer?,
        weight: weight?,
    })
}

const FIRST: Version = Version {
    tick: 0,
    count: 0,
    origin: 0,
};

impl Known {
    fn new(alloc: Global) -> Known {
        Known {
            states: Newest::new(alloc),
            links: Vec::new(alloc),
            routes: Routes::new(alloc),
        }
    }

    fn begin(&mut self, alloc: Global) -> bool {
        self.states = Newest::new(alloc);
        self.links.clear();
        true
    }

    fn state(&mut self, alloc: Global, key: &str, text: &str) -> bool {
        self.states
            .take(alloc, key.as_bytes(), FIRST, Some(text.as_bytes()))
            .is_ok()
    }

    fn own(&mut self, link: Option<Link>) -> bool {
        match link {
            Some(link) => self.links.push(link).is_ok(),
            None => false,
        }
    }

    fn rebuild(&mut self, alloc: Global, own: Option<u32>) -> bool {
        match own {
            Some(own) => self
                .routes
                .rebuild(alloc, own, self.links.as_slice(), &self.states)
                .is_ok(),
            None => false,
        }
    }

    fn hops(&self, address: Option<u32>, link: Option<u16>) -> bool {
        match address {
            Some(address) => self.routes.next_hop(address) == link,
            None => false,
        }
    }

    /// Whether it goes as a line says.
    fn goes(&mut self, alloc: Global, line: &str) -> bool {
        let mut words = line.split_ascii_whitespace();
        let word = words.next();
        let one = words.next();
        let two = words.next();
        match word {
            Some("#") => true,
            Some("anew") => self.begin(alloc),
            Some("state") => self.state(alloc, one.unwrap_or(""), two.unwrap_or("")),
            Some("own") => self.own(link_of(small(one), number(two), small(words.next()))),
            Some("rebuild") => self.rebuild(alloc, number(one)),
            Some("hop") => self.hops(number(one), small(two)),
            _ => false,
        }
    }

    /// The place of the first line that is not so.
    fn first_difference(&mut self, alloc: Global) -> Option<usize> {
        for (place, line) in LINES.lines().enumerate() {
            if !self.goes(alloc, line) {
                return Some(place);
            }
        }
        None
    }
}

/// The place of the first line that is not so, where nothing is known at first.
fn first_of_all(alloc: Global) -> Option<usize> {
    let mut known = Known::new(alloc);
    known.first_difference(alloc)
}

#[test]
fn next_hops_go_by_what_both_ends_claim(rt: HostRuntime) {
    assert_eq!(rt; first_of_all(rt.alloc()), None);
}
