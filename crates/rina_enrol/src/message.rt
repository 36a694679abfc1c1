//! The messages that two neighbours send over their link, each as the CDAP message that it is.
ghost use Rattle.std.specs.Prelude.{◌≡◌, ◌++◌, IfOk, OnOk, option_copied};
ghost use Rattle.rina_cdap.specs.Messages.{be4};
ghost use Rattle.rina_enrol.specs.declared.message.LinkMessage.TheVariants.{Connect};
ghost use Rattle.rina_enrol.specs.Messages.{operation_of, invoke_of, class_of, name_of, value_of, result_of, joiner_of, member_of, item_text, live_text, message_of};

use rina_base::{Addr, AppName, Bytes, Memory, Name};
use rina_cdap::{Message, operation, put_number};
use rina_newest::Item;
use std::alloc::{AllocError, Global};

/// The class of the object that an enrolment starts and stops.
const ENROLMENT: &[u8] = b"enrol";

/// The class of items.
const VALUE: &[u8] = b"value";

/// The object that an enrolment starts and stops.
const MEMBERS: &[u8] = b"/member";

/// A message that a neighbour sends over a link: those of an enrolment, and the flood of an item. An `invoke` id
/// names a request in its response.
#[derive(Drop)]
pub enum LinkMessage {
    /// CONNECT: an IPC process asks to join.
    Connect {
        invoke: u32,
        joiner: AppName,
        /// The member that it joins at.
        member: AppName,
    },
    /// CONNECT_R: whether it may.
    ConnectR {
        invoke: u32,
        /// The rule that denies the joiner; None where it is allowed.
        denied: Option<u32>,
    },
    /// START: the joiner tells its address.
    Start {
        invoke: u32,
        address: Addr,
    },
    /// START_R: the items follow.
    StartR {
        invoke: u32,
    },
    /// An item that the sender keeps, within an enrolment.
    Item {
        item: Item,
    },
    /// STOP: all items were sent.
    Stop {
        invoke: u32,
    },
    /// STOP_R: the joiner is enrolled, and its items follow.
    StopR {
        invoke: u32,
    },
    /// An item that the sender made, or took as news.
    Flood {
        item: Item,
    },
}

/// The bytes of a value of a live item behind a byte 1, or a byte 0 for a deletion, at the end.
fn put_live(out: &mut Vec<u8>, value: Option<&[u8]>) -> Result<(), AllocError>
    ensures { OnOk result (out.new.items ≡ out.old.items ++ live_text (option_copied value.entry)) }
{
    match value {
        Some(text) => {
            out.extend_from_slice(&[1])?;
            out.extend_from_slice(text)
        }
        None => out.extend_from_slice(&[0]),
    }
}

/// An item without its key, as the value of a message.
#[tactic(auto, unfolding(crate::specs::Messages::item_text))]
fn item_text(alloc: Global, item: &Item) -> Result<Bytes, Memory>
    ensures { IfOk result (λ b. b ≡ item_text item.now) }
{
    let mut out = Vec::new(alloc);
    put_number(&mut out, item.version.tick)?;
    put_number(&mut out, item.version.count)?;
    put_number(&mut out, item.version.origin)?;
    put_live(&mut out, item.live())?;
    Ok(Bytes::from_vec(out))
}

/// The text of a number.
fn number_text(alloc: Global, number: u32) -> Result<Bytes, Memory>
    ensures { IfOk result (λ b. b ≡ be4 number) }
{
    let mut out = Vec::new(alloc);
    put_number(&mut out, number)?;
    Ok(Bytes::from_vec(out))
}

/// The name that a text is; only memory may be missing.
fn class_name(alloc: Global, text: &[u8]) -> Result<Name, Memory>
    ensures { IfOk result (λ n. n ≡ text.now) }
{
    match Name::read(alloc, text) {
        Ok(name) => Ok(name),
        Err(_) => Err(Memory),
    }
}

/// A copy of a CONNECT.
fn connect_copy(
    alloc: Global,
    invoke: u32,
    joiner: &AppName,
    member: &AppName,
) -> Result<LinkMessage, Memory>
    ensures { IfOk result (λ m. m ≡ Connect invoke joiner.now member.now) }
{
    let joiner = joiner.copy(alloc)?;
    let member = member.copy(alloc)?;
    Ok(LinkMessage::Connect {
        invoke,
        joiner,
        member,
    })
}

impl LinkMessage {
    /// A copy.
    pub fn copy(&self, alloc: Global) -> Result<LinkMessage, Memory>
        ensures { IfOk result (λ m. m ≡ self.now) }
    {
        match self {
            LinkMessage::Connect {
                invoke,
                joiner,
                member,
            } => connect_copy(alloc, *invoke, joiner, member),
            LinkMessage::ConnectR { invoke, denied } => Ok(LinkMessage::ConnectR {
                invoke: *invoke,
                denied: *denied,
            }),
            LinkMessage::Start { invoke, address } => Ok(LinkMessage::Start {
                invoke: *invoke,
                address: *address,
            }),
            LinkMessage::StartR { invoke } => Ok(LinkMessage::StartR { invoke: *invoke }),
            LinkMessage::Item { item } => Ok(LinkMessage::Item {
                item: item.copy(alloc)?,
            }),
            LinkMessage::Stop { invoke } => Ok(LinkMessage::Stop { invoke: *invoke }),
            LinkMessage::StopR { invoke } => Ok(LinkMessage::StopR { invoke: *invoke }),
            LinkMessage::Flood { item } => Ok(LinkMessage::Flood {
                item: item.copy(alloc)?,
            }),
        }
    }

    fn operation(&self) -> u8
        ensures { result ≡ operation_of self.now }
    {
        match self {
            LinkMessage::Connect { .. } => operation::CONNECT,
            LinkMessage::ConnectR { .. } => operation::CONNECT + 1,
            LinkMessage::Start { .. } => operation::START,
            LinkMessage::StartR { .. } => operation::START + 1,
            LinkMessage::Item { .. } => operation::CREATE,
            LinkMessage::Stop { .. } => operation::STOP,
            LinkMessage::StopR { .. } => operation::STOP + 1,
            LinkMessage::Flood { .. } => operation::WRITE,
        }
    }

    fn invoke(&self) -> u32
        ensures { result ≡ invoke_of self.now }
    {
        match self {
            LinkMessage::Connect { invoke, .. }
            | LinkMessage::ConnectR { invoke, .. }
            | LinkMessage::Start { invoke, .. }
            | LinkMessage::StartR { invoke }
            | LinkMessage::Stop { invoke }
            | LinkMessage::StopR { invoke } => *invoke,
            LinkMessage::Item { .. } | LinkMessage::Flood { .. } => 0,
        }
    }

    fn class(&self, alloc: Global) -> Result<Option<Name>, Memory>
        ensures { IfOk result (λ n. n ≡ class_of self.now) }
    {
        match self {
            LinkMessage::Start { .. } | LinkMessage::Stop { .. } | LinkMessage::StopR { .. } => {
                Ok(Some(class_name(alloc, ENROLMENT)?))
            }
            LinkMessage::Item { .. } | LinkMessage::Flood { .. } => {
                Ok(Some(class_name(alloc, VALUE)?))
            }
            _ => Ok(None),
        }
    }

    fn name(&self, alloc: Global) -> Result<Option<Bytes>, Memory>
        ensures { IfOk result (λ n. n ≡ name_of self.now) }
    {
        match self {
            LinkMessage::Start { .. } | LinkMessage::Stop { .. } | LinkMessage::StopR { .. } => {
                Ok(Some(Bytes::copy_of(alloc, MEMBERS)?))
            }
            LinkMessage::Item { item } | LinkMessage::Flood { item } => {
                Ok(Some(Bytes::copy_of(alloc, item.key.as_slice())?))
            }
            _ => Ok(None),
        }
    }

    fn value(&self, alloc: Global) -> Result<Option<Bytes>, Memory>
        ensures { IfOk result (λ n. n ≡ value_of self.now) }
    {
        match self {
            LinkMessage::ConnectR {
                denied: Some(rule),
                ..
            } => Ok(Some(number_text(alloc, *rule)?)),
            LinkMessage::Start { address, .. } => Ok(Some(number_text(alloc, *address)?)),
            LinkMessage::Item { item } | LinkMessage::Flood { item } => {
                Ok(Some(item_text(alloc, item)?))
            }
            _ => Ok(None),
        }
    }

    fn result(&self) -> Option<u8>
        ensures { result ≡ result_of self.now }
    {
        match self {
            LinkMessage::ConnectR {
                denied: Some(_),
                ..
            } => Some(1),
            LinkMessage::ConnectR { denied: None, .. }
            | LinkMessage::StartR { .. }
            | LinkMessage::StopR { .. } => Some(0),
            _ => None,
        }
    }

    fn joiner(&self, alloc: Global) -> Result<Option<AppName>, Memory>
        ensures { IfOk result (λ n. n ≡ joiner_of self.now) }
    {
        match self {
            LinkMessage::Connect { joiner, .. } => Ok(Some(joiner.copy(alloc)?)),
            _ => Ok(None),
        }
    }

    fn member(&self, alloc: Global) -> Result<Option<AppName>, Memory>
        ensures { IfOk result (λ n. n ≡ member_of self.now) }
    {
        match self {
            LinkMessage::Connect { member, .. } => Ok(Some(member.copy(alloc)?)),
            _ => Ok(None),
        }
    }

    /// The CDAP message that it is.
    #[tactic(auto, unfolding(crate::specs::Messages::message_of))]
    pub fn message(&self, alloc: Global) -> Result<Message, Memory>
        ensures { IfOk result (λ m. m ≡ message_of self.now) }
    {
        let mut m = Message::new(self.operation(), self.invoke());
        m.class = self.class(alloc)?;
        m.name = self.name(alloc)?;
        m.value = self.value(alloc)?;
        m.result = self.result();
        m.source_name = self.joiner(alloc)?;
        m.destination_name = self.member(alloc)?;
        Ok(m)
    }
}
