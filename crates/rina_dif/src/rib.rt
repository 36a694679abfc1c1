//! What the IPC processes of a DIF show of their objects.
ghost use Rattle.std.specs.Prelude.{◌≡◌, ◌<◌, length, map, IfOk, OnOk};
ghost use Rattle.std.specs.List.{fold};
ghost use Rattle.rina_base.specs.ObjectNames.{IsObjectName};
ghost use Rattle.rina_rib.specs.Walks.{named_of, within};
ghost use Rattle.rina_dif.specs.Objects.{IsRibAt, ShowsUnder, shown_of, told_open};
ghost use Rattle.rina_dif.specs.Whole.{IsDif};

use crate::dif::Dif;
use crate::flow_state::{FlowState, flows_at};
use crate::objects::flow_object;
use crate::shown::{Objects, Shown};
use rina_base::{Bytes, Memory, Node, Seq};
use rina_data::StepError;
use rina_member::tell;
use rina_rib::{Object, Rib};
use std::alloc::{AllocError, Global};

/// Gives a flow its numbers of now, while it is allocated.
fn tell_if_open(alloc: Global, rib: &mut Rib, flow: &FlowState) -> Result<(), Memory>
    ensures { OnOk result (rib.new ≡ told_open rib.old flow.now) }
{
    if !flow.open {
        return Ok(());
    }
    let shown = flow_object(alloc, flow)?;
    let (name, value) = (shown.name.as_slice(), shown.value.as_slice());
    tell(alloc, rib, name, shown.class, value)
}

/// Gives the flows that are allocated their numbers of now.
fn tell_open(alloc: Global, rib: &mut Rib, flows: &[FlowState]) -> Result<(), Memory>
    ensures { OnOk result (rib.new ≡ fold told_open rib.old flows.now) }
{
    for flow in flows {
        tell_if_open(alloc, rib, flow)?;
    }
    Ok(())
}

/// An object as it is shown.
fn show(alloc: Global, name: &[u8], object: Object<'_>) -> Result<Shown, AllocError>
    ensures { IfOk result (λ s. s ≡ shown_of (named_of (name.entry, object.entry))) }
{
    Ok(Shown {
        name: Bytes::copy_of(alloc, name)?,
        class: object.class,
        value: Bytes::copy_of(alloc, object.value)?,
    })
}

/// The object of a name, and all under it, in the byte order of names.
fn show_under(alloc: Global, rib: &Rib, under: &[u8]) -> Result<Objects, Memory>
    requires { IsObjectName under.now }
    ensures { IfOk result (λ objects. objects ≡ map shown_of (within under.now rib.now.objects)) }
{
    let mut objects = Seq::new(alloc);
    for (name, object) in rib.walk(under) {
        objects.push(show(alloc, name, object)?)?;
    }
    Ok(objects)
}

impl Dif {
    /// The RIB of the IPC process at a place.
    pub(crate) fn rib_at(&self, alloc: Global, at: usize) -> Result<Rib, Memory>
        requires valid { IsDif self.now }
        requires at { at < length self.now.settings.members }
        ensures { IfOk result (IsRibAt self.now at) }
    {
        let (Some(member), Some(management)) = (
            self.settings.members.get(at),
            self.managements.get(at),
        ) else {
            unreachable!()
        };
        let states = self.flow_states(alloc)?;
        let flows = flows_at(alloc, member.node, &states)?;
        let mut rib = management.objects.copy()?;
        tell_open(alloc, &mut rib, &flows)?;
        Ok(rib)
    }

    /// The object of a name at the member of a node, and all under it, in the byte order of names. `NoIpc` where the
    /// DIF has no member there.
    pub fn rib(&self, alloc: Global, node: Node, under: &[u8]) -> Result<Objects, StepError>
        requires valid { IsDif self.now }
        requires under { IsObjectName under.now }
        ensures { ShowsUnder self.now node under.now result }
    {
        let Some(at) = self.place_at_node(node) else {
            return Err(StepError::NoIpc);
        };
        let rib = self.rib_at(alloc, at)?;
        Ok(show_under(alloc, &rib, under)?)
    }
}
