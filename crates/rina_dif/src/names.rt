//! The names that are registered at a DIF.
ghost use Rattle.std.specs.Prelude.{◌≡◌, ◌↔◌, ◌<◌, ℕ, length, remove, slice_get, IfSome, Some, Ok, Err, OnErr, true};
ghost use Rattle.rina_base.specs.Names.{app_at};
ghost use Rattle.rina_iface.specs.declared.error.RegisterError.TheVariants as register;
ghost use Rattle.rina_iface.specs.declared.error.UnregisterError.TheVariants as unregister;
ghost use Rattle.rina_iface.specs.Register.{Registers};
ghost use Rattle.rina_iface.specs.Seen.{Seen, is_member};
ghost use Rattle.rina_iface.specs.Unregister.{Unregisters};
ghost use Rattle.rina_dif_law.specs.Dif.{fac_of};
ghost use Rattle.rina_member.specs.declared.management.Management.{Management};
ghost use Rattle.rina_member.specs.Short.{AreNamed};
ghost use Rattle.rina_dif.specs.Elsewhere.{enrolled_home};
ghost use Rattle.rina_dif.specs.Facade.{GoesOn, IsShownAs, StaysStanding, shown_as};
ghost use Rattle.rina_dif.specs.Registering.{AnswersEntry, RegistersManaged, UnregistersManaged, no_value, own_address, register_refusal, register_told, unregister_refusal, unregister_told};
ghost use Rattle.rina_dif.specs.Shown.{seen_of};
ghost use Rattle.rina_dif.specs.Whole.{IsDif};

use crate::dif::Dif;
use rina_agent::AgentError;
use rina_base::{AppName, Node, Seq};
use rina_data::Member;
use rina_iface::{RegisterError, Registered, UnregisterError, is_registered, name_place};
use rina_member::{Management, registered, unregistered};
use std::alloc::Global;
use std::mem;

/// The name of an application has the form that its type says. Does nothing.
pub(crate) fn is_formed(app: &AppName)
    ensures { app_at app.now ≡ Ok app.now }
{
    let _length = app.len();
}

/// So have the names of members. Does nothing.
pub(crate) fn are_named(members: &[Member])
    ensures { AreNamed members.now }
{
    for at in 0..members.len() {
        is_formed(&members[at].name);
    }
}

/// Takes the name at a place away. Takes no memory.
fn remove_at(alloc: Global, names: &mut Seq<Registered>, place: usize)
    requires { place < length names.old }
    ensures { names.new ≡ remove names.old place }
{
    let mut all = mem::replace(names, Seq::new(alloc)).into_vec();
    let _name = all.remove(place);
    *names = Seq::from_vec(all);
}

/// Why a registration is refused, where the member makes no item.
fn refused_register(error: AgentError) -> RegisterError
    ensures { result ≡ register_told error }
{
    match error {
        AgentError::Memory => RegisterError::Memory,
        AgentError::CountSpent { need, left } => RegisterError::CountSpent { need, left },
    }
}

/// Why the end of a registration is refused then.
fn refused_unregister(error: AgentError) -> UnregisterError
    ensures { result ≡ unregister_told error }
{
    match error {
        AgentError::Memory => UnregisterError::Memory,
        AgentError::CountSpent { need, left } => UnregisterError::CountSpent { need, left },
    }
}

/// Whether a node is one of these.
fn is_among(nodes: &[Node], node: Node) -> bool
    ensures { result ≡ is_member nodes.now node }
{
    nodes.iter().any(|other| *other == node)
}

impl Dif {
    /// Whether an enrolled member is at a node.
    pub fn is_enrolled(&self, node: Node) -> bool
        ensures { result ≡ is_member (fac_of (seen_of self.now)).members node }
    {
        is_among(self.enrolled.as_slice(), node)
    }

    /// The place of the enrolled member at a node. None exactly where the DIF has none there.
    pub(crate) fn enrolled_place(&self, node: Node) -> Option<usize>
        ensures place { result ≡ enrolled_home self.now node }
        ensures within { IfSome result (λ i. i < length self.now.settings.members) }
    {
        if self.is_enrolled(node) {
            self.place_at_node(node)
        } else {
            None
        }
    }

    /// The management of the member at a place after an application was registered there.
    fn management_registered(
        &self,
        alloc: Global,
        at: usize,
        app: &AppName,
    ) -> Result<Management, RegisterError>
        requires { at < length self.now.managements }
        ensures { (m : Management) → slice_get self.now.managements at ≡ Some m → AnswersEntry register_told self.now.clock app.now (own_address m) m result }
    {
        let Some(management) = self.managements.get(at) else {
            unreachable!()
        };
        match registered(alloc, management, self.clock, app) {
            Ok(after) => Ok(after),
            Err(error) => Err(refused_register(error)),
        }
    }

    /// The management of the member at a place after the registration of an application there ended.
    fn management_unregistered(
        &self,
        alloc: Global,
        at: usize,
        app: &AppName,
    ) -> Result<Management, UnregisterError>
        requires { at < length self.now.managements }
        ensures { (m : Management) → slice_get self.now.managements at ≡ Some m → AnswersEntry unregister_told self.now.clock app.now (no_value m) m result }
    {
        let Some(management) = self.managements.get(at) else {
            unreachable!()
        };
        match unregistered(alloc, management, self.clock, app) {
            Ok(after) => Ok(after),
            Err(error) => Err(refused_unregister(error)),
        }
    }

    /// Registers an application at a node, and lets the enrolled member there make its directory entry. A refused call changes nothing.
    fn add_name(&mut self, alloc: Global, node: Node, app: &AppName) -> Result<(), RegisterError>
        requires { IsDif self.old }
        ensures valid { IsDif self.new }
        ensures shown { (s : Seen) (n : ℕ) → IsShownAs s n self.old → Registers (register_refusal self.old node) s n node app.now result (shown_as s n self.new) }
        ensures manages { RegistersManaged result self.old node app.now self.new.managements }
        ensures goes_on { GoesOn self.old self.new }
        ensures stands { StaysStanding self.old self.new }
        ensures whole { self.new ≡ record self.old { names = self.new.names; managements = self.new.managements } }
        ensures err { OnErr result (self.new ≡ self.old) }
    {
        if is_registered(self.names.as_slice(), node, app) {
            return Err(RegisterError::Already);
        }
        let Some(at) = self.enrolled_place(node) else {
            return Err(RegisterError::NoMember);
        };
        is_formed(app);
        let after = self.management_registered(alloc, at, app)?;
        let app = app.copy(alloc)?;
        self.names.push(Registered { node, app })?;
        self.managements.set(at, after);
        Ok(())
    }

    /// Ends the registration of an application at a node, and lets the member there delete its directory entry. A refused call changes
    /// nothing.
    fn remove_name(
        &mut self,
        alloc: Global,
        node: Node,
        app: &AppName,
    ) -> Result<(), UnregisterError>
        requires { IsDif self.old }
        ensures valid { IsDif self.new }
        ensures shown { (s : Seen) (n : ℕ) → IsShownAs s n self.old → Unregisters (unregister_refusal self.old node) s n node app.now result (shown_as s n self.new) }
        ensures manages { UnregistersManaged result self.old node app.now self.new.managements }
        ensures goes_on { GoesOn self.old self.new }
        ensures stands { StaysStanding self.old self.new }
        ensures whole { self.new ≡ record self.old { names = self.new.names; managements = self.new.managements } }
        ensures err { OnErr result (self.new ≡ self.old) }
    {
        let Some(place) = name_place(self.names.as_slice(), node, app) else {
            return Err(UnregisterError::NotThere);
        };
        let Some(at) = self.enrolled_place(node) else {
            remove_at(alloc, &mut self.names, place);
            return Ok(());
        };
        is_formed(app);
        let after = self.management_unregistered(alloc, at, app)?;
        self.managements.set(at, after);
        remove_at(alloc, &mut self.names, place);
        Ok(())
    }

    /// Registers an application at a node: the enrolled member there makes its directory entry, shows it, and floods it on each link that is
    /// up. A refused call changes nothing.
    pub fn register(
        &mut self,
        alloc: Global,
        node: Node,
        app: &AppName,
    ) -> Result<(), RegisterError>
        requires { IsDif self.old }
        ensures valid { IsDif self.new }
        ensures shown { (s : Seen) (n : ℕ) → IsShownAs s n self.old → Registers (register_refusal self.old node) s n node app.now result (shown_as s n self.new) }
        ensures manages { RegistersManaged result self.old node app.now self.new.managements }
        ensures goes_on { GoesOn self.old self.new }
        ensures stands { StaysStanding self.old self.new }
        ensures settings { self.new.settings ≡ self.old.settings }
        ensures laid { self.new.laid ≡ self.old.laid }
        ensures whole { self.new ≡ record self.old { names = self.new.names; managements = self.new.managements; failed = self.new.failed } }
        ensures failed { self.old.failed ≡ true → result ≡ Err register.Memory }
        ensures fails { self.new.failed ≡ true ↔ (result ≡ Err register.Memory) }
    {
        if self.failed {
            return Err(RegisterError::Memory);
        }
        let added = self.add_name(alloc, node, app);
        self.failed = matches!(added, Err(RegisterError::Memory));
        added
    }

    /// Ends the registration of an application at a node: the member there deletes its directory entry, and floods that on each link
    /// that is up. A refused call changes nothing.
    pub fn unregister(
        &mut self,
        alloc: Global,
        node: Node,
        app: &AppName,
    ) -> Result<(), UnregisterError>
        requires { IsDif self.old }
        ensures valid { IsDif self.new }
        ensures shown { (s : Seen) (n : ℕ) → IsShownAs s n self.old → Unregisters (unregister_refusal self.old node) s n node app.now result (shown_as s n self.new) }
        ensures manages { UnregistersManaged result self.old node app.now self.new.managements }
        ensures goes_on { GoesOn self.old self.new }
        ensures stands { StaysStanding self.old self.new }
        ensures settings { self.new.settings ≡ self.old.settings }
        ensures laid { self.new.laid ≡ self.old.laid }
        ensures whole { self.new ≡ record self.old { names = self.new.names; managements = self.new.managements; failed = self.new.failed } }
        ensures failed { self.old.failed ≡ true → result ≡ Err unregister.Memory }
        ensures fails { self.new.failed ≡ true ↔ (result ≡ Err unregister.Memory) }
    {
        if self.failed {
            return Err(UnregisterError::Memory);
        }
        let removed = self.remove_name(alloc, node, app);
        self.failed = matches!(removed, Err(UnregisterError::Memory));
        removed
    }
}
