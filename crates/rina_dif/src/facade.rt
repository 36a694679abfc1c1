//! A DIF as one facility of its rank.
ghost use Rattle.std.specs.Prelude.{◌≡◌, None, Some, IsSome, MatchOption, option_map, List};
ghost use Rattle.rina_cube.specs.declared.Cube.{Cube};
ghost use Rattle.rina_iface.specs.declared.ends.End.{End};
ghost use Rattle.rina_iface.specs.Pass.{IsPassed as PassesThere};
ghost use Rattle.rina_iface.specs.Seen.{Offer, Seen};
ghost use Rattle.rina_law.specs.declared.entry.Entry.{Entry};
ghost use Rattle.rina_law.specs.Direction.{Direction};
ghost use Rattle.rina_data.specs.Configs.{config_of, cube_by};
ghost use Rattle.rina_dif_law.specs.Sending.{home};
ghost use Rattle.rina_dif.specs.Elsewhere.{ChangesOnly, IsPortAt};
ghost use Rattle.rina_dif.specs.Facade.{GoesOn, IsLedger, IsShownAs, IsStateAt, PassesAt, RankShows, StaysStanding, cube_there, its_cube, its_end, its_oldest, shown_as};
ghost use Rattle.rina_dif.specs.Holding.{Holds};
ghost use Rattle.rina_dif.specs.Whole.{IsDif};

use crate::dif::Dif;
use rina_account::Off;
use rina_agent::MemberState;
use rina_base::{Node, Port, Tick};
use rina_cube::Cube;
use rina_data::{IpcProcess, Settings};
use rina_iface::{Journal, Lent, PortState};

/// A rank that shows a DIF shows its ends, the cubes of these, and what waits there.
pub fn a_rank_shows_its_difs()
    ensures { RankShows }
{}

/// The cube of an id. None exactly where there is none.
pub(crate) fn cube_of(cubes: &[Cube], id: u8) -> Option<&Cube>
    ensures { option_map (λ c. c.now) result ≡ cube_by id cubes.now }
{
    cubes.iter().find(|cube| cube.id == id)
}

impl Dif {
    /// The clock, in ticks.
    pub fn now(&self) -> Tick
        ensures { result ≡ self.now.clock }
    {
        self.clock
    }

    /// What never changes in it.
    pub fn settings(&self) -> &Settings
        ensures { result.now ≡ self.now.settings }
    {
        &self.settings
    }

    /// Its IPC processes, each at the place of its member.
    pub fn processes(&self) -> &[IpcProcess]
        ensures { result.now ≡ self.now.processes }
    {
        self.processes.as_slice()
    }

    /// What the member at a node has written off, the oldest first. None exactly where the DIF has no member there.
    pub fn ledger(&self, node: Node) -> Option<&[Off]>
        requires { IsDif self.now }
        ensures { MatchOption result (home node (config_of self.now.settings).members ≡ None) (λ offs. IsLedger self.now node offs.now) }
    {
        let home = self.place_at_node(node)?;
        let Some(process) = self.processes.get(home) else {
            unreachable!()
        };
        Some(process.ledger.lines())
    }

    /// The state of the member at a node. None exactly where the DIF has no member there.
    pub fn member(&self, node: Node) -> Option<MemberState>
        requires { IsDif self.now }
        ensures { MatchOption result (home node (config_of self.now.settings).members ≡ None) (λ state. IsStateAt self.now node state) }
    {
        let home = self.place_at_node(node)?;
        let Some(management) = self.managements.get(home) else {
            unreachable!()
        };
        Some(management.agent.state)
    }

    /// All ends of its flows.
    pub fn journal(&self) -> &Journal
        ensures { result.now ≡ self.now.flows.journal }
    {
        &self.flows.journal
    }

    /// The state of a port. None exactly where the port was never drawn.
    pub fn state(&self, port: Port) -> Option<PortState>
        ensures { result ≡ option_map (λ (e : End). e.state) (its_end self.now port) }
    {
        Some(self.flows.journal.ends.find(port)?.state)
    }

    /// The cube of a port's end.
    fn cube(&self, port: Port) -> Option<&Cube>
        ensures { option_map (λ c. c.now) result ≡ cube_there self.now port }
    {
        let end = self.flows.journal.ends.find(port)?;
        cube_of(self.settings.cubes.as_slice(), end.cube)
    }

    /// How many ticks pass at most from acceptance to delivery. None exactly where the port was never drawn.
    pub fn promise(&self, port: Port) -> Option<u32>
        requires { IsDif self.now }
        ensures { result ≡ option_map (λ (o : Offer). o.promise) (its_cube self.now port) }
    {
        match self.cube(port) {
            Some(cube) => Some(cube.promise()),
            None => None,
        }
    }

    /// How many bytes an SDU has at most. None exactly where the port was never drawn.
    pub fn largest(&self, port: Port) -> Option<u32>
        ensures { result ≡ option_map (λ (o : Offer). o.largest) (its_cube self.now port) }
    {
        match self.cube(port) {
            Some(cube) => Some(cube.largest),
            None => None,
        }
    }

    /// Lends the oldest SDU of a port's end that was not passed yet. None exactly where there is none.
    pub fn peek(&self, port: Port) -> Option<Lent<'_>>
        ensures { MatchOption result (its_oldest self.now port ≡ None) (λ l. (x : Entry) × (its_oldest self.now port ≡ Some x) × (l.at ≡ x.tick) × (l.bytes.now ≡ x.bytes)) }
    {
        let end = self.flows.journal.ends.find(port)?;
        let entry = end.got.get(end.taken as usize)?;
        Some(Lent {
            at: entry.tick,
            bytes: entry.bytes.as_slice(),
        })
    }

    /// Passes the oldest SDU of a port's end, where one waits. Takes no memory.
    pub fn pass(&mut self, port: Port)
        requires valid { IsDif self.old }
        requires waits { IsSome (its_oldest self.old port) }
        ensures valid { IsDif self.new }
        ensures does { (lines : List Direction) (below : Seen) → Holds self.old lines below → PassesAt self.old lines port self.new below }
        ensures shown { (s : Seen) → IsShownAs s port.fac self.old → PassesThere s port (shown_as s port.fac self.new) }
        ensures goes_on { GoesOn self.old self.new }
        ensures stands { StaysStanding self.old self.new }
        ensures settings { self.new.settings ≡ self.old.settings }
        ensures laid { self.new.laid ≡ self.old.laid }
        ensures whole { self.new ≡ record self.old { flows = self.new.flows } }
        ensures leaves { ChangesOnly (IsPortAt self.old port) None self.old self.new }
        ensures failed { self.new.failed ≡ self.old.failed }
    {
        let Some(at) = self.flows.journal.ends.place(port) else {
            unreachable!()
        };
        self.pass_at(at);
    }
}
