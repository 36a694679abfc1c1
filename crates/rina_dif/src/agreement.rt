//! The laws of flooding in a DIF, as the contract of a function that does nothing.
ghost use Rattle.rina_dif.specs.FloodingLaws.{MembersAgree, MembersKeepTheNewest, QuietMembersKnowLinks};

/// Each member of a DIF keeps of each key the newest item of all that it made or was offered. Where no message waits or is on its
/// way on a walk of links that are up, the members at its ends keep the same items, and each keeps the other's link state as the
/// other's links are now.
pub fn members_keep_the_newest_and_agree()
    ensures newest { MembersKeepTheNewest }
    ensures agree { MembersAgree }
{
    rina_flood::members_keep_the_newest();
    rina_flood::members_are_a_network();
}

/// Where no message waits or is on its way on a walk of links that are up, the items of the member at its one end claim, from the
/// address of the member at the other, the links that are up there, with known neighbours, and no others. In a static DIF those are
/// the live links of its IPC process: those of the plan, and behind them those that enrolments made. So the
/// next hops of members that such walks join are over those links of all of them.
pub fn quiet_members_know_live_links()
    ensures { QuietMembersKnowLinks }
{
    rina_flood::members_are_a_network();
}
