//! The built-in policies on tables of heads, and a shelf with policies of its own.
ghost use Rattle.std.specs.Prelude.{◌≡◌, ◌-◌, length};

use rina_base::{Name, NameError};
use rina_policy::{Count, First, Head, Last, Policy, Round, Shelf, Strict, Weighted};
use std::alloc::Global;

/// Answers the last place, and keeps its count.
#[derive(Drop)]
struct Back {
    count: Count,
}

impl Policy for Back {
    ghost count = { λ s. s.count };

    ghost may_pick = { λ _ _ heads place. place ≡ length heads - 1 };

    fn pick(&mut self, _who: u32, heads: &[Head]) -> u32 {
        let place = heads.len() as u32 - 1;
        self.count.note(place);
        place
    }

    fn picks(&self) -> u64 {
        self.count.picks
    }

    fn last(&self) -> u32 {
        self.count.last
    }
}

const HEAD: Head = Head {
    qos: 0,
    waiting: 1,
    len: 10,
    since: 5,
};

/// The heads of cubes 0 to 3, which wait since ticks 5, 3, 9 and 3.
static HEADS: [Head; 4] = [
    HEAD,
    Head {
        qos: 1,
        since: 3,
        ..HEAD
    },
    Head {
        qos: 2,
        since: 9,
        ..HEAD
    },
    Head {
        qos: 3,
        since: 3,
        ..HEAD
    },
];

/// The heads from one cube up to another are shown, and a place is picked.
type Row = (usize, usize, u32);

static STRICT: [Row; 2] = [(0, 3, 0), (0, 3, 0)];

static LAST: [Row; 2] = [(0, 3, 2), (0, 1, 0)];

/// The least tick is picked, and of two the first.
static FIRST: [Row; 3] = [(0, 4, 1), (2, 4, 1), (0, 1, 0)];

static ROUND: [Row; 8] = [
    (0, 3, 0),
    (0, 3, 1),
    (0, 3, 2),
    (0, 3, 0),
    (0, 3, 1),
    (0, 3, 2),
    (0, 3, 0),
    (0, 3, 1),
];

static WEIGHTED: [Row; 8] = [
    (0, 3, 0),
    (0, 3, 0),
    (0, 3, 0),
    (0, 3, 2),
    (0, 3, 0),
    (0, 3, 0),
    (0, 3, 0),
    (0, 3, 2),
];

/// Whether a policy picks each place, and keeps how often it picked and its last pick.
fn goes<P: Policy>(policy: &mut P, rows: &[Row], picks: u64, last: u32) -> bool {
    for (from, to, wanted) in rows {
        if *from >= *to || *to > HEADS.len() || policy.pick(0, &HEADS[*from..*to]) != *wanted {
            return false;
        }
    }
    policy.picks() == picks && policy.last() == last
}

/// Whether each policy picks by its rule.
fn each_goes() -> bool {
    goes(&mut Strict::new(), &STRICT, 2, 0)
        && goes(&mut Last::new(), &LAST, 2, 0)
        && goes(&mut First::new(), &FIRST, 3, 0)
        && goes(&mut Round::new(), &ROUND, 8, 1)
        && goes(&mut Weighted::new(), &WEIGHTED, 8, 2)
}

#[test]
fn each_policy_picks_by_its_rule(rt: HostRuntime) {
    assert!(rt; each_goes());
}

/// The name of a policy on a shelf.
#[derive(Clone, Copy)]
enum On {
    Round,
    Back,
}

/// What is asked of a shelf under a name.
#[derive(Clone, Copy)]
enum Ask {
    Has,
    AddRound,
    AddBack,
    AddStrict,
    Retire,
    /// The first heads are shown, so many.
    Pick(usize),
}

/// What it tells: whether it has a name, whether it did what it was asked, or the place that was picked.
#[derive(Clone, Copy, PartialEq, Eq)]
enum Told {
    Yes,
    No,
    Place(u32),
}

/// A name, what is asked under it, and what is told.
type Step = (On, Ask, Told);

/// A shelf asks by name, and takes each name once.
static SHELF: [Step; 9] = [
    (On::Round, Ask::Has, Told::No),
    (On::Round, Ask::Pick(3), Told::Place(0)),
    (On::Round, Ask::AddRound, Told::Yes),
    (On::Back, Ask::AddBack, Told::Yes),
    (On::Back, Ask::AddStrict, Told::No),
    (On::Round, Ask::Pick(3), Told::Place(0)),
    (On::Back, Ask::Pick(3), Told::Place(2)),
    (On::Round, Ask::Pick(3), Told::Place(1)),
    (On::Back, Ask::Pick(2), Told::Place(1)),
];

/// A policy that is retired is not asked, and its name stays taken.
static RETIRED: [Step; 8] = [
    (On::Back, Ask::Retire, Told::No),
    (On::Back, Ask::AddBack, Told::Yes),
    (On::Back, Ask::Pick(2), Told::Place(1)),
    (On::Back, Ask::Retire, Told::Yes),
    (On::Back, Ask::Pick(2), Told::Place(0)),
    (On::Back, Ask::Retire, Told::No),
    (On::Back, Ask::Has, Told::Yes),
    (On::Back, Ask::AddStrict, Told::No),
];

fn name_of(alloc: Global, on: On) -> Result<Name, NameError> {
    match on {
        On::Round => Name::read(alloc, b"round"),
        On::Back => Name::read(alloc, b"back"),
    }
}

fn yes_if(holds: bool) -> Told {
    if holds { Told::Yes } else { Told::No }
}

fn picked(shelf: &mut Shelf, name: &Name, count: usize) -> Told {
    if count == 0 || count > HEADS.len() {
        return Told::No;
    }
    Told::Place(shelf.pick(name, 0, &HEADS[..count]))
}

fn new_back() -> Back {
    Back {
        count: Count::new(),
    }
}

/// Whether a shelf takes a policy under a name.
fn is_added(alloc: Global, shelf: &mut Shelf, name: &Name, policy: Box<dyn Policy>) -> bool {
    match name.copy(alloc) {
        Ok(added) => shelf.add(alloc, added, policy).is_ok(),
        Err(_) => false,
    }
}

fn adds_round(alloc: Global, shelf: &mut Shelf, name: &Name) -> bool {
    match Box::new(alloc, Round::new()) {
        Ok(policy) => is_added(alloc, shelf, name, policy),
        Err(_) => false,
    }
}

fn adds_back(alloc: Global, shelf: &mut Shelf, name: &Name) -> bool {
    match Box::new(alloc, new_back()) {
        Ok(policy) => is_added(alloc, shelf, name, policy),
        Err(_) => false,
    }
}

fn adds_strict(alloc: Global, shelf: &mut Shelf, name: &Name) -> bool {
    match Box::new(alloc, Strict::new()) {
        Ok(policy) => is_added(alloc, shelf, name, policy),
        Err(_) => false,
    }
}

fn answer_of(alloc: Global, shelf: &mut Shelf, name: &Name, ask: Ask) -> Told {
    match ask {
        Ask::Has => yes_if(shelf.has(name)),
        Ask::AddRound => yes_if(adds_round(alloc, shelf, name)),
        Ask::AddBack => yes_if(adds_back(alloc, shelf, name)),
        Ask::AddStrict => yes_if(adds_strict(alloc, shelf, name)),
        Ask::Retire => yes_if(shelf.retire(name).is_ok()),
        Ask::Pick(count) => picked(shelf, name, count),
    }
}

/// Whether a shelf tells what a step says.
fn tells(alloc: Global, shelf: &mut Shelf, step: Step) -> bool {
    let (on, ask, wanted) = step;
    match name_of(alloc, on) {
        Ok(name) => answer_of(alloc, shelf, &name, ask) == wanted,
        Err(_) => false,
    }
}

fn tells_all(alloc: Global, shelf: &mut Shelf, steps: &[Step]) -> bool {
    for step in steps {
        if !tells(alloc, shelf, *step) {
            return false;
        }
    }
    true
}

/// Whether a new shelf tells what each step says.
fn new_tells_all(alloc: Global, steps: &[Step]) -> bool {
    match Shelf::new(alloc) {
        Ok(mut shelf) => tells_all(alloc, &mut shelf, steps),
        Err(_) => false,
    }
}

#[test]
fn a_shelf_asks_by_name(rt: HostRuntime) {
    assert!(rt; new_tells_all(rt.alloc(), &SHELF) && new_tells_all(rt.alloc(), &RETIRED));
}
