//! The laws of a member's management. These functions do nothing: their contracts are laws.
ghost use Rattle.std.specs.Prelude.{◌≡◌, ℕ, List, [], ◌++◌, Some, option_map, slice_get};
ghost use Rattle.rina_newest.specs.declared.item.Item.{Item};
ghost use Rattle.rina_agent.specs.declared.link.Link.{Link};
ghost use Rattle.rina_agent.specs.declared.message.Waiting.{Waiting};
ghost use Rattle.rina_agent.specs.Agenda.{waiting_on, first_on, floods};
ghost use Rattle.rina_agent.specs.Enrolled.{KeepsAtLeast, HasAllThatWereHandled};

/// The messages of each link wait in the order in which they were put, the first of them is the one that is lent, and no
/// item is flooded to the link that it came from.
pub fn each_link_has_its_messages_in_order()
    ensures last { (link : ℕ) (agenda more : List Waiting) → waiting_on link (agenda ++ more) ≡ waiting_on link agenda ++ waiting_on link more }
    ensures first { (link : ℕ) (agenda : List Waiting) → option_map (λ (w : Waiting). w.message) (first_on link agenda) ≡ slice_get (waiting_on link agenda) 0 }
    ensures not_back { (link : ℕ) (item : Item) (links : List Link) → waiting_on link (floods (Some link) item links) ≡ [] }
{}

/// A member keeps each item that came, or a newer one, whatever else happens to it. So a joiner that handles STOP has, key by
/// key, what the member kept at START, since that put each of its items in front of STOP.
pub fn a_joiner_has_what_the_member_told()
    ensures keeps { KeepsAtLeast }
    ensures has_all { HasAllThatWereHandled }
{}
