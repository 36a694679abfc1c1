//! How flows are asked of a DIF, and how their far ends are claimed.
ghost use Rattle.std.specs.Prelude.{◌≡◌, ◌↔◌, ◌<◌, ◌≤◌, ℕ, List, OnErr, OnOk, Some, Err, length, true};
ghost use Rattle.rina_data.specs.Configs.{config_of, cube_by};
ghost use Rattle.rina_flows.specs.Elsewhere.{SameBut};
ghost use Rattle.rina_ids.specs.Members.{DrawsAt};
ghost use Rattle.rina_iface.specs.declared.error.AllocateError.TheVariants.{Memory as NoneFound};
ghost use Rattle.rina_iface.specs.Allocate.{Allocates};
ghost use Rattle.rina_iface.specs.Claim.{Claims};
ghost use Rattle.rina_iface.specs.Seen.{Seen};
ghost use Rattle.rina_law.specs.Direction.{Direction};
ghost use Rattle.rina_dif_law.specs.Standing.{IsConfig};
ghost use Rattle.rina_dif.specs.Allocating.{allocate_refusal};
ghost use Rattle.rina_dif.specs.Facade.{GoesOn, IsShownAs, StaysStanding, shown_as};
ghost use Rattle.rina_dif.specs.Holding.{Holds};
ghost use Rattle.rina_dif.specs.Requesting.{AddsEnd, AsksAt, AsksTo, HasDrawnOne, HasRequested, IsWanted, MayRequest, Requests, RequestsAs};
ghost use Rattle.rina_dif.specs.Shown.{seen_of};
ghost use Rattle.rina_dif.specs.Whole.{IsDif};

use crate::asked_flow::AskedFlow;
use crate::dif::Dif;
use crate::fixed_flows::{greatest, piece, wants_memory};
use crate::waiting_asks::WaitingAsk;
use rina_base::{AppName, Memory, Node, Port};
use rina_conn::Peer;
use rina_cube::Cube;
use rina_iface::{AllocateError, Ask, End};
use std::alloc::Global;

impl Dif {
    /// Draws a CEP-id at the member at a place, and adds an end there, with a connection of a cube of the DIF. Where an allocation fails nothing
    /// changes.
    pub(crate) fn add_drawn_end(
        &mut self,
        alloc: Global,
        at: usize,
        cube: &Cube,
        peer: Peer,
        end: End,
    ) -> Result<(), Memory>
        requires valid { IsConfig (config_of self.old.settings) }
        requires cube { cube_by cube.now.id self.old.settings.cubes ≡ Some cube.now }
        requires draws { DrawsAt self.old.ids self.old.clock at peer.scep }
        ensures ok { OnOk result (AddsEnd self.old cube.now peer end self.new.flows) }
        ensures keeps { OnOk result (SameBut (λ i. length self.old.flows.conns ≤ i) self.old.flows.conns self.new.flows.conns) }
        ensures ids { OnOk result (HasDrawnOne self.old.ids self.old.clock at peer.scep self.new.ids) }
        ensures rest { OnOk result (self.new ≡ record self.old { flows = self.new.flows; ids = self.new.ids }) }
        ensures err { OnErr result (self.new ≡ self.old) }
    {
        let draw = self.ids.draw(alloc, self.clock, at)?;
        let (piece, max) = (piece(&self.settings), greatest(self.settings.widths));
        let added = self.flows.add_end(alloc, cube, piece, max, peer, end);
        if added.is_err() {
            self.ids.undo_draw(alloc, at, draw);
        }
        added
    }

    /// Lets the request for a flow wait for the link on which the way to the other member begins, and the ask for its answer. Without memory no
    /// request waits; an ask may stand, which counts for nothing, since its end is not there.
    fn request(&mut self, alloc: Global, ask: &Ask, flow: AskedFlow) -> Result<(), Memory>
        requires valid { IsDif self.old }
        requires wanted { IsWanted self.old ask.now flow }
        ensures ok { OnOk result (HasRequested self.old ask.now flow self.new) }
        ensures err { OnErr result (self.new ≡ record self.old { asks = self.new.asks }) }
        ensures holds { (lines : List Direction) (below : Seen) → Holds self.old lines below → Holds self.new lines below }
    {
        let at = flow.near.place;
        let invoke = self.managements.next_invoke(at);
        let message = flow.message(alloc, ask, invoke)?;
        let waiting = WaitingAsk {
            member: at,
            invoke,
            place: self.flows.journal.ends.len(),
        };
        if self.asks.push(waiting).is_err() {
            return Err(Memory);
        }
        self.send_message(alloc, at, message)
    }

    /// Asks for a flow that nothing refuses: its request waits for its link, and the asker's end for the answer. Without memory the DIF shows
    /// what it showed, and the request may wait, which is never sent.
    fn add_ask(&mut self, alloc: Global, ask: &Ask, flow: AskedFlow) -> Result<(), Memory>
        requires valid { IsDif self.old }
        requires wanted { IsWanted self.old ask.now flow }
        ensures ok { OnOk result ((lines : List Direction) (below : Seen) → Holds self.old lines below → AsksAt self.old lines below ask.now flow.near.port self.new) }
        ensures err { OnErr result ((lines : List Direction) (below : Seen) → Holds self.old lines below → (seen_of self.new ≡ seen_of self.old) × Holds self.new lines below) }
        ensures asks_for { OnOk result (Requests self.old ask.now flow.near.port self.new) }
        ensures fails_so { OnErr result (MayRequest self.old ask.now self.new.managements) }
        ensures whole { self.new ≡ record self.old { flows = self.new.flows; ids = self.new.ids; managements = self.new.managements; asks = self.new.asks } }
        ensures keeps { OnOk result (SameBut (λ i. length self.old.flows.conns ≤ i) self.old.flows.conns self.new.flows.conns) }
        ensures still { OnErr result (self.new.flows ≡ self.old.flows) }
    {
        let at = flow.near.place;
        let end = flow.end(alloc, ask)?;
        self.request(alloc, ask, flow)?;
        self.add_drawn_end(alloc, at, &flow.cube, flow.peer(), end)?;
        self.managements.draw_invoke(at);
        Ok(())
    }

    /// Asks another member for a flow, where nothing refuses it.
    fn ask_for(&mut self, alloc: Global, ask: &Ask) -> Result<Port, AllocateError>
        requires { IsDif self.old }
        ensures does { (lines : List Direction) (below : Seen) → Holds self.old lines below → AsksTo self.old lines below ask.now result self.new }
        ensures asks_for { RequestsAs result self.old ask.now self.new }
        ensures whole { self.new ≡ record self.old { flows = self.new.flows; ids = self.new.ids; managements = self.new.managements; asks = self.new.asks } }
        ensures keeps { SameBut (λ i. length self.old.flows.conns ≤ i) self.old.flows.conns self.new.flows.conns }
    {
        let flow = self.asked_flow(ask)?;
        self.add_ask(alloc, ask, flow)?;
        Ok(flow.near.port)
    }

    /// Asks for a flow: the port waits for the answer of the member at which the application is registered, as the directory of the asking
    /// member says. Refused for the first of these causes: no enrolled member is at the node; no cube meets the wish; the member there knows the
    /// application nowhere, or at itself; it can draw no CEP-id or no port; it has no next hop to the address of the application; or it has no
    /// invoke id left. A refused call changes nothing. Without memory the DIF shows what it showed, and a request may wait, which is never sent.
    pub fn allocate(&mut self, alloc: Global, ask: &Ask) -> Result<Port, AllocateError>
        requires { IsDif self.old }
        ensures does { (lines : List Direction) (below : Seen) → Holds self.old lines below → AsksTo self.old lines below ask.now result self.new }
        ensures valid { IsDif self.new }
        ensures shown { (s : Seen) → IsShownAs s ask.now.fac self.old → self.old.settings.fac ≡ ask.now.fac → Allocates (allocate_refusal self.old ask.now) s ask.now result (shown_as s ask.now.fac self.new) }
        ensures goes_on { GoesOn self.old self.new }
        ensures stands { StaysStanding self.old self.new }
        ensures settings { self.new.settings ≡ self.old.settings }
        ensures laid { self.new.laid ≡ self.old.laid }
        ensures whole { self.new ≡ record self.old { flows = self.new.flows; ids = self.new.ids; managements = self.new.managements; asks = self.new.asks; failed = self.new.failed } }
        ensures asks_for { RequestsAs result self.old ask.now self.new }
        ensures keeps { SameBut (λ i. length self.old.flows.conns ≤ i) self.old.flows.conns self.new.flows.conns }
        ensures failed { self.old.failed ≡ true → result ≡ Err NoneFound }
        ensures fails { self.new.failed ≡ true ↔ (result ≡ Err NoneFound) }
    {
        if self.failed {
            return Err(AllocateError::Memory);
        }
        let result = self.ask_for(alloc, ask);
        self.failed = wants_memory(&result);
        result
    }

    /// Claims the oldest far end of an application at a node that nobody claimed yet, and answers its port.
    pub fn incoming(&mut self, node: Node, app: &AppName) -> Option<Port>
        requires { IsDif self.old }
        ensures valid { IsDif self.new }
        ensures shown { (s : Seen) (n : ℕ) → IsShownAs s n self.old → Claims s n node app.now result (shown_as s n self.new) }
        ensures goes_on { GoesOn self.old self.new }
        ensures stands { StaysStanding self.old self.new }
        ensures settings { self.new.settings ≡ self.old.settings }
        ensures laid { self.new.laid ≡ self.old.laid }
        ensures whole { self.new ≡ record self.old { waiting = self.new.waiting } }
        ensures failed { self.new.failed ≡ self.old.failed }
    {
        let at = self
            .flows
            .journal
            .ends
            .oldest(self.waiting.as_slice(), node, app)?;
        let place = self.waiting.remove(at);
        let Some(end) = self.flows.journal.ends.get(place) else {
            unreachable!()
        };
        Some(end.port)
    }
}
