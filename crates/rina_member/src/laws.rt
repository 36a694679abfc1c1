//! The laws of a member that handles the SDUs of its links. These functions do nothing: their contracts are laws.
ghost use Rattle.std.specs.Prelude.{◌≡◌, ◌<◌, ◌≤◌, ◌^◌, ◌++◌, ◌∷◌, [], ℕ, ◌+◌, Bool, false, true, length, slice_get, slice_set, Contains, List, Err, IfSome, None, Ok, Option, Some};
ghost use Rattle.std.specs.Fmt.{decimal};
ghost use Rattle.rina_access.specs.declared.rules.Rules.{Rules};
ghost use Rattle.rina_base.specs.Names.{app_at};
ghost use Rattle.rina_alloc.specs.declared.message.FlowMessage.{FlowMessage};
ghost use Rattle.rina_alloc.specs.Messages.{IsInRange as IsFlowInRange, IsSpelled as IsFlowText};
ghost use Rattle.rina_newest.specs.declared.item.Item.{Item};
ghost use Rattle.rina_enrol.specs.declared.message.LinkMessage.{LinkMessage};
ghost use Rattle.rina_enrol.specs.Items.{CarriesReplicated};
ghost use Rattle.rina_enrol.specs.Messages.{IsInRange};
ghost use Rattle.rina_route.specs.declared.link.Link.{Link as Hop};
ghost use Rattle.rina_agent.specs.declared.agent.Agent.{Agent};
ghost use Rattle.rina_agent.specs.declared.message.ManagementMessage.TheVariants.{ToMember, ToNeighbour};
ghost use Rattle.rina_agent.specs.declared.state.AgentError.TheVariants.{CountSpent};
ghost use Rattle.rina_agent.specs.declared.state.MemberState.TheVariants.{Enrolled};
ghost use Rattle.rina_agent.specs.Counts.{spent};
ghost use Rattle.rina_agent.specs.Items.{made};
ghost use Rattle.rina_agent.specs.Rows.{joining, lost};
ghost use Rattle.rina_dir.specs.Directory.{AreEntries, key_of};
ghost use Rattle.rina_data.specs.declared.link.Link.{Link};
ghost use Rattle.rina_data.specs.declared.link.Route.{Route};
ghost use Rattle.rina_data.specs.declared.settings.Member.{Member};
ghost use Rattle.rina_data.specs.Process.{next_hop};
ghost use Rattle.rina_plan.specs.declared.dif.LinkPlan.{LinkPlan};
ghost use Rattle.rina_member.specs.declared.management.Management.{Management};
ghost use Rattle.rina_member.specs.Handling.{BringsItemName, IsSameMember, IsUnenrolled, KeepsOthers, KeepsOutsideItems, OwnIsNewest, TakesNews, item_in};
ghost use Rattle.rina_member.specs.Knowing.{AreHopsOfPlan, AreLive, AreNumbered, AreRoutesOf, HasLiveLink, IsFreeNumber, IsLaidOut, IsPlanned, KeepsOtherClaims, Knows, SameEdges, all_claims, hops_of, made_links};
ghost use Rattle.rina_member.specs.Managements.{Handles, HandlesSdu, IsNews, IsSdu, LosesLink, MakesEntry, claimed, entered, entry_of, is_news, keys_brought, takes_item, with_sent};
ghost use Rattle.rina_member.specs.Routing.{AreRoutesOver, edges_from, edges_of, live_links, live_of};
ghost use Rattle.rina_member.specs.Short.{AreNamed, HaveFewLinks, IsShort, TellsShort};
ghost use Rattle.rina_member.specs.Start.{HasLinksIfStatic, items_held, started};

/// An SDU is handled as the one message that it is. It changes nothing where that is no news, or about a flow.
pub fn an_sdu_is_one_message()
    ensures news { (now link : ℕ) (sdu : List ℕ) (message : LinkMessage) (m : Management) (after : Option Management) → IsNews message sdu m → HandlesSdu now link sdu m (Ok after) → (m' : Management) × (after ≡ Some m') × Handles now link message m m' }
    ensures old { (now link : ℕ) (sdu : List ℕ) (message : LinkMessage) (m : Management) (after : Option Management) → IsSdu message sdu → is_news m.agent.items message ≡ false → HandlesSdu now link sdu m (Ok after) → after ≡ None }
    ensures flows { (now link : ℕ) (sdu : List ℕ) (message : FlowMessage) (m : Management) (after : Option Management) → IsFlowInRange message → IsFlowText message sdu → HandlesSdu now link sdu m (Ok after) → after ≡ None }
    // No bytes are those of a message of a neighbour and of one about a flow.
    ensures apart { (sdu : List ℕ) (message : LinkMessage) (flow : FlowMessage) → IsSdu message sdu → IsFlowText flow sdu → ⊥ }
{}

/// An item or a flood that is news is taken, and needs no version count.
pub fn an_item_that_is_news_is_taken()
    ensures takes { (now link : ℕ) (sdu : List ℕ) (message : LinkMessage) (item : Item) (m : Management) (after : Option Management) → IsNews message sdu m → item_in message ≡ Some item → HandlesSdu now link sdu m (Ok after) → (m' : Management) × (after ≡ Some m') × TakesNews link item m m' }
    ensures counts { (now link need left : ℕ) (sdu : List ℕ) (message : LinkMessage) (item : Item) (m : Management) → IsSdu message sdu → item_in message ≡ Some item → HandlesSdu now link sdu m (Err (CountSpent need left)) → ⊥ }
{}

/// On a link that no enrolment made, the messages of enrolments change nothing, and no message needs a version count.
pub fn a_link_without_an_enrolment_brings_items_alone()
    ensures same { (now link : ℕ) (message : LinkMessage) (m m' : Management) → IsUnenrolled m.agent.links link → item_in message ≡ None → Handles now link message m m' → m' ≡ m }
    ensures counts { (now link need left : ℕ) (sdu : List ℕ) (m : Management) → IsUnenrolled m.agent.links link → HandlesSdu now link sdu m (Err (CountSpent need left)) → ⊥ }
{}

/// Whatever message it handles, a member is who it was, with the rules that it had, and the objects stay as they were but for those of
/// the items that the message brought.
pub fn a_message_changes_the_objects_of_its_items()
    ensures same { (now link : ℕ) (message : LinkMessage) (m m' : Management) → Handles now link message m m' → IsSameMember m.agent m'.agent }
    ensures others { (now link : ℕ) (message : LinkMessage) (m m' : Management) → Handles now link message m m' → KeepsOthers (keys_brought m.agent.last_count m'.agent message) m.objects m'.objects }
    ensures outside { (now link : ℕ) (message : LinkMessage) (m m' : Management) → BringsItemName message → Handles now link message m m' → KeepsOutsideItems m.objects m'.objects }
{}

/// A member of a DIF tells short messages alone from the start, and goes on to do so when it takes a directory entry, makes one with its
/// own address or deletes one, gets a link or asks for an enrolment on a new one, where it has fewer than 16, loses a link, sends a
/// message, handles a short one, lets a short one for another member wait, and draws an invoke id.
pub fn a_member_tells_short_messages()
    ensures starts { (is_static : Bool) (members : List Member) (plans : List LinkPlan) (rules : Rules) (m : Member) (links : List Link) → IsLaidOut members plans → AreNamed members → HaveFewLinks members plans → Contains members m → length links ≤ 16 → TellsShort (started is_static members plans rules m links) }
    ensures enters { (app : List ℕ) (address : ℕ) (m : Management) → app_at app ≡ Ok app → address < 2 ^ 32 → TellsShort m.agent → TellsShort (entered app address m).agent }
    ensures makes { (now : ℕ) (app : List ℕ) (value : Option (List ℕ)) (m m' : Management) → app_at app ≡ Ok app → IfSome value (λ text. text ≡ decimal m.agent.address) → MakesEntry now app value m m' → TellsShort m.agent → TellsShort m'.agent }
    ensures joins { (number : ℕ) (member node : List ℕ) (g : Agent) → app_at member ≡ Ok member → length g.links < 16 → TellsShort g → TellsShort (joining g number member node) }
    ensures claims { (number : ℕ) (g : Agent) → length g.links < 16 → TellsShort g → TellsShort (claimed g number) }
    ensures loses { (now link : ℕ) (m m' : Management) → LosesLink now link m m' → TellsShort m.agent → TellsShort m'.agent }
    ensures sends { (link : ℕ) (m : Management) → TellsShort m.agent → TellsShort (with_sent m link).agent }
    ensures handles { (now link : ℕ) (message : LinkMessage) (m m' : Management) → IsInRange message → IsShort (ToNeighbour message) → Handles now link message m m' → TellsShort m.agent → TellsShort m'.agent }
    ensures posts { (number : ℕ) (message : FlowMessage) (g : Agent) → IsShort (ToMember message) → TellsShort g → TellsShort (record g { agenda = g.agenda ++ record { link = number; message = ToMember message } ∷ [] }) }
    ensures draws { (g : Agent) → TellsShort g → TellsShort (record g { last_invoke = g.last_invoke + 1 }) }
{}

/// The items of a member that tells short messages alone have the form of the directory, so that applications can be looked up in them.
pub fn its_items_are_entries()
    ensures { (g : Agent) → TellsShort g → AreEntries g.items }
{}

/// A member that is enrolled stays so: when it handles a message, asks for a further enrolment, and loses a link.
pub fn a_member_stays_enrolled()
    ensures handles { (now link : ℕ) (message : LinkMessage) (m m' : Management) → Handles now link message m m' → m.agent.state ≡ Enrolled → m'.agent.state ≡ Enrolled }
    ensures joins { (number : ℕ) (member node : List ℕ) (g : Agent) → g.state ≡ Enrolled → (joining g number member node).state ≡ Enrolled }
    ensures loses { (now number : ℕ) (g g' : Agent) → lost g now number ≡ Ok g' → g.state ≡ Enrolled → g'.state ≡ Enrolled }
{}

/// The items of the start claim the links of the plan, and no others. So the next hops over them are over these links.
pub fn the_start_claims_the_plan()
    ensures claims { (is_static : Bool) (members : List Member) (plans : List LinkPlan) (m : Member) → IsLaidOut members plans → HasLinksIfStatic is_static plans → Contains members m → SameEdges (all_claims (items_held is_static members plans m)) (edges_of members plans) }
    ensures routes { (is_static : Bool) (members : List Member) (plans : List LinkPlan) (rules : Rules) (m : Member) (links : List Link) (routes : List Route) → IsLaidOut members plans → HasLinksIfStatic is_static plans → Contains members m → AreRoutesOf (started is_static members plans rules m links) members routes → AreRoutesOver m.addr (live_links members plans m links) (edges_of members plans) members routes }
{}

/// A member of a DIF knows its links from the start, and goes on to do so as time passes, when it takes or makes a directory entry, gets
/// a link or asks for an enrolment on a new one, sends a message, loses a link, which leaves what its items claim of others, and
/// when it handles a message that members of its DIF send.
pub fn a_member_knows_its_links()
    ensures starts { (is_static : Bool) (members : List Member) (plans : List LinkPlan) (rules : Rules) (m : Member) (links : List Link) (now : ℕ) → IsLaidOut members plans → HasLinksIfStatic is_static links → Contains members m → AreNumbered links → AreLive links → length (edges_from members m.node plans) ≡ length links → Knows now m links (started is_static members plans rules m links) }
    ensures passes { (now later : ℕ) (m : Member) (links : List Link) (g : Agent) → now ≤ later → Knows now m links g → Knows later m links g }
    ensures enters { (now : ℕ) (m : Member) (links : List Link) (g : Agent) (app : List ℕ) (address : ℕ) → Knows now m links g → Knows now m links (takes_item g (entry_of app address)) }
    ensures makes { (now : ℕ) (m : Member) (links : List Link) (g : Agent) (app : List ℕ) (value : Option (List ℕ)) → spent 1 g.last_count ≡ None → Knows now m links g → Knows now m links (made None g now (key_of app) value) }
    ensures joins { (now : ℕ) (m : Member) (links : List Link) (g : Agent) (link : Link) (member node : List ℕ) → IsFreeNumber links link.number → link.live ≡ true → Knows now m links g → Knows now m (links ++ link ∷ []) (joining g link.number member node) }
    ensures claims { (now : ℕ) (m : Member) (links : List Link) (g : Agent) (link : Link) → IsFreeNumber links link.number → link.live ≡ true → Knows now m links g → Knows now m (links ++ link ∷ []) (claimed g link.number) }
    ensures loses { (now : ℕ) (m : Member) (links : List Link) (g g' : Agent) (k : ℕ) (link : Link) → Knows now m links g → slice_get links k ≡ Some link → link.live ≡ true → lost g now link.number ≡ Ok g' → Knows now m (slice_set links k (record link { live = false })) g' × KeepsOtherClaims m.addr g.items g'.items }
    ensures sends { (now : ℕ) (m : Member) (links : List Link) (management : Management) (number : ℕ) → Knows now m links management.agent → Knows now m links (with_sent management number).agent }
    ensures handles { (now number : ℕ) (m : Member) (links : List Link) (message : LinkMessage) (old new : Management) → Knows now m links old.agent → IsInRange message → CarriesReplicated message → OwnIsNewest old.agent message → Handles now number message old new → Knows now m links new.agent }
    // Its next hops are over its links that are up and the edges that its items claim; each is the number of a live link of its IPC process.
    ensures routes { (now : ℕ) (m : Member) (links : List Link) (g : Agent) (members : List Member) (routes : List Route) → Knows now m links g → AreRoutesOf g members routes → AreRoutesOver m.addr (hops_of g.links) (all_claims g.items) members routes }
    ensures live { (now : ℕ) (m : Member) (links : List Link) (g : Agent) (members : List Member) (routes : List Route) (dst number : ℕ) → Knows now m links g → AreRoutesOf g members routes → next_hop dst routes ≡ Some number → HasLiveLink links number }
    // It has as many links as its IPC process has live ones.
    ensures count { (now : ℕ) (m : Member) (links : List Link) (g : Agent) → Knows now m links g → length g.links ≡ length (live_of links) }
{}

/// A member of a static DIF has the live links of the plan from the start, with their neighbours and weights, before those that enrolments
/// made. So it goes on when it gets a link or asks for an enrolment on a new one, loses a link, and handles a message.
pub fn a_member_of_a_static_dif_keeps_the_plan()
    ensures starts { (members : List Member) (plans : List LinkPlan) (rules : Rules) (m : Member) (links : List Link) → Contains members m → AreNumbered links → length (edges_from members m.node plans) ≡ length links → IsPlanned members plans m links (started true members plans rules m links) }
    ensures joins { (members : List Member) (plans : List LinkPlan) (m : Member) (links : List Link) (g : Agent) (link : Link) (member node : List ℕ) → IsPlanned members plans m links g → IsPlanned members plans m (links ++ link ∷ []) (joining g link.number member node) }
    ensures claims { (members : List Member) (plans : List LinkPlan) (m : Member) (links : List Link) (g : Agent) (link : Link) → IsPlanned members plans m links g → IsPlanned members plans m (links ++ link ∷ []) (claimed g link.number) }
    ensures loses { (members : List Member) (plans : List LinkPlan) (now : ℕ) (m : Member) (links : List Link) (g g' : Agent) (k : ℕ) (link : Link) → Knows now m links g → IsPlanned members plans m links g → slice_get links k ≡ Some link → link.live ≡ true → lost g now link.number ≡ Ok g' → IsPlanned members plans m (slice_set links k (record link { live = false })) g' }
    ensures handles { (members : List Member) (plans : List LinkPlan) (now number : ℕ) (m : Member) (links : List Link) (message : LinkMessage) (old new : Management) → IsPlanned members plans m links old.agent → Handles now number message old new → IsPlanned members plans m links new.agent }
    // Of its links that are up the first are the live ones of the plan, and each other one is live. Where no enrolment made a link, there are no others.
    ensures up { (members : List Member) (plans : List LinkPlan) (m : Member) (now : ℕ) (links : List Link) (g : Agent) → IsPlanned members plans m links g → Knows now m links g → AreHopsOfPlan members plans m links (hops_of g.links) }
    ensures alone { (members : List Member) (plans : List LinkPlan) (m : Member) (links : List Link) (hops : List Hop) → AreHopsOfPlan members plans m links hops → made_links members plans m links ≡ [] → hops ≡ live_links members plans m links }
{}
