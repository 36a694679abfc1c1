//! The objects of flows.
ghost use Rattle.std.specs.Prelude.{◌≡◌, ◌<◌, IfOk, length, slice_get, Some};
ghost use Rattle.rina_conn.specs.declared.conn.Conn.{Conn};
ghost use Rattle.rina_dif.specs.Objects.{flow_object};
ghost use Rattle.rina_member.specs.Objects.{flow_name};

use crate::dif::Dif;
use crate::flow_state::FlowState;
use crate::shown::Shown;
use crate::text::add_number;
use rina_base::{Bytes, Memory, Seq};
use rina_member::flow_name;
use rina_rib::Class;
use std::alloc::{AllocError, Global};

/// The numbers of a flow.
#[tactic(auto, unfolding(crate::specs::Objects::flow_object))]
fn flow_text(alloc: Global, flow: &FlowState) -> Result<Vec<u8>, AllocError>
    ensures { IfOk result (λ v. v.items ≡ (flow_object flow.now).value) }
{
    let mut text = Vec::from_slice(alloc, b"tx=")?;
    add_number(&mut text, flow.tx)?;
    text.extend_from_slice(b",rx=")?;
    add_number(&mut text, flow.rx)?;
    Ok(text)
}

/// A flow: its next number, and the number after the greatest one that it accepted.
#[tactic(auto, unfolding(crate::specs::Objects::flow_object))]
pub(crate) fn flow_object(alloc: Global, flow: &FlowState) -> Result<Shown, Memory>
    ensures { IfOk result (λ s. s ≡ flow_object flow.now) }
{
    Ok(Shown {
        name: flow_name(alloc, flow.cep)?,
        class: Class::Flow,
        value: Seq::from_vec(flow_text(alloc, flow)?),
    })
}

impl Dif {
    /// The name of the object of the flow of the end at a place.
    pub(crate) fn name_of_flow(&self, alloc: Global, at: usize) -> Result<Bytes, Memory>
        requires { at < length self.now.flows.conns }
        ensures { IfOk result (λ name. (k : Conn) → slice_get self.now.flows.conns at ≡ Some k → name ≡ flow_name k.sending.form.peer.scep) }
    {
        let cep = self.flows.conns.at(at).sending.form.peer.scep;
        Ok(flow_name(alloc, cep)?)
    }
}
