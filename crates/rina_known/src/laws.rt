//! The laws of directory entries in a DIF, each as the contract of a function that does nothing.
ghost use Rattle.std.specs.Prelude.{List};
ghost use Rattle.rina_asked.specs.Calls.{AllocateKeeps, CdapKeeps, ClockKeeps, EnrolKeeps, FreeKeeps, InKeeps, IncomingKeeps, NewAre, OutKeeps, PassKeeps, SendKeeps, TimeKeeps, UnregisterKeeps};
ghost use Rattle.rina_known.specs.Calls.{AsksFindNames, BindAdds, KnowsFindNames, MoreAreKnown, RegisterAdds, RequestsFindNames};
ghost use Rattle.rina_known.specs.Entries.{AreKnown, Name};

/// Of each live directory entry in a DIF, be it kept by a member, in a message that waits at one or in a text that a link carries
/// and that is not handled at its other end, the application and the address are one of some names. From the start, when there
/// is no entry, so it is of any names; and with more names so it is still.
pub fn known_names_were_registered()
    ensures start { (names : List Name) → NewAre (AreKnown names) }
    ensures more { MoreAreKnown }
{}

/// Each call of a DIF keeps that, by what its contract says of it, until an allocation fails. `register` adds the name of its
/// application at the address of the member at its node, and `bind` that of its far application. No other call makes a live entry.
pub fn calls_keep_known_names()
    ensures allocate { (names : List Name) → AllocateKeeps (AreKnown names) }
    ensures incoming { (names : List Name) → IncomingKeeps (AreKnown names) }
    ensures bind { BindAdds }
    ensures send { (names : List Name) → SendKeeps (AreKnown names) }
    ensures pass { (names : List Name) → PassKeeps (AreKnown names) }
    ensures free { (names : List Name) → FreeKeeps (AreKnown names) }
    ensures register { RegisterAdds }
    ensures unregister { (names : List Name) → UnregisterKeeps (AreKnown names) }
    ensures cdap { (names : List Name) → CdapKeeps (AreKnown names) }
    ensures enrol { (names : List Name) → EnrolKeeps (AreKnown names) }
{}

/// So does each step, and the clock that goes on: a member takes the entries that others tell it, and makes none.
pub fn steps_keep_known_names()
    ensures coming { (names : List Name) → InKeeps (AreKnown names) }
    ensures going { (names : List Name) → OutKeeps (AreKnown names) }
    ensures clock { (names : List Name) → ClockKeeps (AreKnown names) }
    ensures time { (names : List Name) → TimeKeeps (AreKnown names) }
{}

/// So the address at which a member finds an application is that of one of the names, for this application; and the flow that
/// `allocate` asks for, where it answers a port, is asked for at such an address.
pub fn allocate_finds_registered_names()
    ensures known { KnowsFindNames }
    ensures asked { AsksFindNames }
    ensures requested { RequestsFindNames }
{}
