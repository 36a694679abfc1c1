//! Timers by id.
ghost use Rattle.std.specs.Prelude.{◌≡◌, length};

use rina_timers::Timers;
use std::alloc::Global;

/// Sets three timers. The slot of 70 begins at 64, and that of both others at 4096.
fn set_three(timers: &mut Timers)
    requires { length timers.old ≡ 3 }
    ensures { length timers.new ≡ 3 }
{
    timers.set(0, 5000);
    timers.set(1, 4999);
    timers.set(2, 70);
}

/// Whether the timer at 70 is told, and that none is due before its slot begins.
fn first_is_told(timers: &mut Timers) -> bool
    requires { length timers.old ≡ 3 }
{
    timers.quiet_until() == 64
        && timers.any_due(69).is_none()
        && timers.at(2) == Some(70)
        && timers.any_due(80) == Some(2)
        && timers.at(2).is_none()
        && timers.any_due(80).is_none()
}

/// Whether the others are told after that.
fn others_are_told(timers: &mut Timers) -> bool {
    timers.quiet_until() == 4096
        && timers.any_due(4999) == Some(1)
        && timers.any_due(4999).is_none()
        && timers.quiet_until() == 5000
}

/// Whether three timers go so.
fn all_go(timers: &mut Timers) -> bool
    requires { length timers.old ≡ 3 }
{
    let none = timers.cap() == 3 && timers.quiet_until() == u32::MAX;
    set_three(timers);
    none && first_is_told(timers) && others_are_told(timers)
}

/// Whether three new timers do.
fn new_go(alloc: Global) -> bool {
    match Timers::new(alloc, 3) {
        Ok(mut timers) => all_go(&mut timers),
        Err(_) => false,
    }
}

#[test]
fn one_that_is_due_is_told_and_a_tick_before_which_none_is(rt: HostRuntime) {
    assert!(rt; new_go(rt.alloc()));
}
