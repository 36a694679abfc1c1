//! Policies that mean no good: they are asked, their answers are followed, and no promise is lost.
ghost use Rattle.std.specs.Prelude.{◌≡◌, ◌<◌, ◌-◌, length};

use crate::inputs::{MANUAL, MANUAL_LINES};
use crate::running::{Ended, ended_of, input_with, times_got, times_told};
use rina_base::Name;
use rina_policy::{Count, First, Head, Last, Policy, Shelf};
use rina_run::Status;
use std::alloc::Global;
use std::test::Fail;

/// Answers a place that it computes of how often it was asked and by whom.
#[derive(Drop)]
struct Scattered {
    count: Count,
}

impl Policy for Scattered {
    ghost count = { λ s. s.count };

    ghost may_pick = { λ _ _ heads place. place < length heads };

    fn pick(&mut self, who: u32, heads: &[Head]) -> u32 {
        let asked = u128::from(self.count.picks) * 7 + u128::from(who);
        let place = (asked % heads.len() as u128) as u32;
        self.count.note(place);
        place
    }

    fn picks(&self) -> u64 {
        self.count.picks
    }

    fn last(&self) -> u32 {
        self.count.last
    }
}

/// Answers the place behind the one that it answered last, and the first one behind the last head.
#[derive(Drop)]
struct Turning {
    count: Count,
}

impl Policy for Turning {
    ghost count = { λ s. s.count };

    ghost may_pick = { λ _ _ heads place. place < length heads };

    fn pick(&mut self, _who: u32, heads: &[Head]) -> u32 {
        let next = u64::from(self.count.last) + 1;
        let place = (next % heads.len() as u64) as u32;
        self.count.note(place);
        place
    }

    fn picks(&self) -> u64 {
        self.count.picks
    }

    fn last(&self) -> u32 {
        self.count.last
    }
}

/// A shelf whose policy `last` scatters.
fn scattered_shelf(alloc: Global) -> Result<Shelf, Fail> {
    let mut shelf = Shelf::new(alloc)?;
    let policy = Scattered {
        count: Count::new(),
    };
    shelf.add(alloc, Name::read(alloc, b"last")?, Box::new(alloc, policy)?)?;
    Ok(shelf)
}

/// A shelf whose policy `last` goes by its past.
fn turning_shelf(alloc: Global) -> Result<Shelf, Fail> {
    let mut shelf = Shelf::new(alloc)?;
    let policy = Turning {
        count: Count::new(),
    };
    shelf.add(alloc, Name::read(alloc, b"last")?, Box::new(alloc, policy)?)?;
    Ok(shelf)
}

/// A shelf with the built-in policy `last`.
fn last_shelf(alloc: Global) -> Result<Shelf, Fail> {
    let mut shelf = Shelf::new(alloc)?;
    shelf.add(
        alloc,
        Name::read(alloc, b"last")?,
        Box::new(alloc, Last::new())?,
    )?;
    Ok(shelf)
}

/// Whether a run is done, sent four SDUs, took four PDUs from the queues, and got the one that it reads for at most once.
fn is_sound(ended: &Ended) -> bool {
    let written = ended.written.as_slice();
    ended.status == Status::Done
        && times_told(written, b" sent ") == 4
        && times_told(written, b" out data ") == 4
        && times_got(written, b"'c") <= 1
}

/// The lines, where the policy is retired before the line of a number.
fn retired_before(alloc: Global, number: usize) -> Result<Vec<u8>, Fail> {
    input_with(alloc, MANUAL, MANUAL_LINES, number, "retire last\n", "")
}

#[test]
fn a_policy_that_scatters_loses_no_promise(rt: HostRuntime) -> Result<(), Fail> {
    for number in 0..13 {
        let alloc = rt.alloc();
        let shelf = scattered_shelf(alloc)?;
        let input = retired_before(alloc, number)?;
        let ended = ended_of(alloc, input.as_slice(), &[], &[], shelf)?;
        assert!(rt; is_sound(&ended), "{number}");
    }
    Ok(())
}

#[test]
fn a_policy_that_goes_by_its_past_loses_no_promise(rt: HostRuntime) -> Result<(), Fail> {
    for number in 0..13 {
        let alloc = rt.alloc();
        let shelf = turning_shelf(alloc)?;
        let input = retired_before(alloc, number)?;
        let ended = ended_of(alloc, input.as_slice(), &[], &[], shelf)?;
        assert!(rt; is_sound(&ended), "{number}");
    }
    Ok(())
}

#[test]
fn a_policy_may_be_retired_before_each_line(rt: HostRuntime) -> Result<(), Fail> {
    for number in 0..13 {
        let alloc = rt.alloc();
        let shelf = last_shelf(alloc)?;
        let input = retired_before(alloc, number)?;
        let ended = ended_of(alloc, input.as_slice(), &[], &[], shelf)?;
        assert!(rt; is_sound(&ended), "{number}");
    }
    Ok(())
}

/// A shelf of a thousand policies, of which the last has the name that the stack asks for.
fn full_shelf(alloc: Global) -> Result<Shelf, Fail> {
    let mut shelf = Shelf::new(alloc)?;
    for number in 1..1000 {
        let text = format!(in alloc; "p{number}")?;
        let name = Name::read(alloc, text.as_str().as_bytes())?;
        shelf.add(alloc, name, Box::new(alloc, First::new())?)?;
    }
    shelf.add(
        alloc,
        Name::read(alloc, b"last")?,
        Box::new(alloc, Last::new())?,
    )?;
    Ok(shelf)
}

#[test]
fn a_shelf_may_hold_a_thousand_policies(rt: HostRuntime) -> Result<(), Fail> {
    let alloc = rt.alloc();
    let input = retired_before(alloc, 5)?;
    let ended = ended_of(alloc, input.as_slice(), &[], &[], full_shelf(alloc)?)?;
    assert!(rt; is_sound(&ended));
    assert_eq!(rt;
        times_told(ended.written.as_slice(), b"5 0 out data 1.2.0"),
        1
    );
    Ok(())
}
