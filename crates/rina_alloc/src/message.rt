//! The messages about flows that two members send each other, each as the CDAP message that it is.
ghost use Rattle.std.specs.Prelude.{◌≡◌, ◌++◌, IfOk, OnOk};
ghost use Rattle.rina_cdap.specs.Messages.{be4};
ghost use Rattle.rina_alloc.specs.Messages.{operation_of, invoke_of, class_of, value_of, result_of, app_text, ask_text, message_of};

use crate::answer::FlowAnswer;
use rina_base::{Addr, AppName, Bytes, Cep, FlowName, Memory, Name};
use rina_cdap::{Message, operation, put_number};
use std::alloc::{AllocError, Global};

/// The class of flows.
const CLASS: &[u8] = b"flow";

/// The object under which flows are made and given up.
const FLOWS: &[u8] = b"/flow";

/// What is asked for.
#[derive(Drop)]
pub struct FlowAsk {
    pub flow: FlowName,
    /// The id of the cube.
    pub cube: u8,
    /// The asker's CEP-id.
    pub scep: Cep,
    /// The application that is asked for.
    pub destination: AppName,
    /// The application that asks.
    pub source: AppName,
}

/// What a message about a flow says.
#[derive(Drop)]
pub enum FlowWord {
    /// A flow is asked for; `invoke` names the ask in its answer.
    Ask {
        invoke: u32,
        ask: FlowAsk,
    },
    /// The answer to an ask.
    Answer {
        invoke: u32,
        answer: FlowAnswer,
    },
    /// A flow is given up.
    Delete {
        /// The CEP-id of the member that it is for.
        dcep: Cep,
        /// The CEP-id of the member that sends it.
        scep: Cep,
    },
}

/// A message about a flow, from one member to another.
#[derive(Drop)]
pub struct FlowMessage {
    /// The address of the member that it is for.
    pub to: Addr,
    /// The address of the member that sends it.
    pub from: Addr,
    pub word: FlowWord,
}

/// Adds the name of an application behind its length.
#[tactic(auto, unfolding(crate::specs::Messages::app_text, rina_cdap::specs::Messages::be2))]
fn put_app(out: &mut Vec<u8>, app: &AppName) -> Result<(), AllocError>
    ensures { OnOk result (out.new.items ≡ out.old.items ++ app_text app.now) }
{
    let len = app.len() as u16;
    out.extend_from_slice(&len.to_be_bytes())?;
    out.extend_from_slice(app.as_bytes())
}

/// An ask, as the value of its message.
#[tactic(auto, unfolding(crate::specs::Messages::ask_text))]
fn ask_text(alloc: Global, ask: &FlowAsk) -> Result<Bytes, Memory>
    ensures { IfOk result (λ b. b ≡ ask_text ask.now) }
{
    let mut out = Vec::new(alloc);
    put_number(&mut out, ask.flow.src)?;
    put_number(&mut out, ask.flow.tick)?;
    put_number(&mut out, ask.flow.count)?;
    out.extend_from_slice(&[ask.cube])?;
    put_number(&mut out, ask.scep)?;
    put_app(&mut out, &ask.destination)?;
    put_app(&mut out, &ask.source)?;
    Ok(Bytes::from_vec(out))
}

/// Two numbers, as the value of an answer or a deletion.
fn pair_text(alloc: Global, first: u32, second: u32) -> Result<Bytes, Memory>
    ensures { IfOk result (λ b. b ≡ be4 first ++ be4 second) }
{
    let mut out = Vec::new(alloc);
    put_number(&mut out, first)?;
    put_number(&mut out, second)?;
    Ok(Bytes::from_vec(out))
}

/// The name of the class; only memory may be missing.
fn class_name(alloc: Global, text: &[u8]) -> Result<Name, Memory>
    ensures { IfOk result (λ n. n ≡ text.now) }
{
    match Name::read(alloc, text) {
        Ok(name) => Ok(name),
        Err(_) => Err(Memory),
    }
}

impl FlowAsk {
    /// A copy.
    pub fn copy(&self, alloc: Global) -> Result<FlowAsk, Memory>
        ensures { IfOk result (λ a. a ≡ self.now) }
    {
        let destination = self.destination.copy(alloc)?;
        let source = self.source.copy(alloc)?;
        Ok(FlowAsk {
            flow: self.flow,
            cube: self.cube,
            scep: self.scep,
            destination,
            source,
        })
    }
}

impl FlowWord {
    /// A copy.
    pub fn copy(&self, alloc: Global) -> Result<FlowWord, Memory>
        ensures { IfOk result (λ w. w ≡ self.now) }
    {
        match self {
            FlowWord::Ask { invoke, ask } => {
                let ask = ask.copy(alloc)?;
                Ok(FlowWord::Ask {
                    invoke: *invoke,
                    ask,
                })
            }
            FlowWord::Answer { invoke, answer } => Ok(FlowWord::Answer {
                invoke: *invoke,
                answer: *answer,
            }),
            FlowWord::Delete { dcep, scep } => Ok(FlowWord::Delete {
                dcep: *dcep,
                scep: *scep,
            }),
        }
    }

    fn operation(&self) -> u8
        ensures { result ≡ operation_of self.now }
    {
        match self {
            FlowWord::Ask { .. } => operation::CREATE,
            FlowWord::Answer { .. } => operation::CREATE + 1,
            FlowWord::Delete { .. } => operation::DELETE,
        }
    }

    fn invoke(&self) -> u32
        ensures { result ≡ invoke_of self.now }
    {
        match self {
            FlowWord::Ask { invoke, .. } | FlowWord::Answer { invoke, .. } => *invoke,
            FlowWord::Delete { .. } => 0,
        }
    }

    fn class(&self, alloc: Global) -> Result<Option<Name>, Memory>
        ensures { IfOk result (λ n. n ≡ class_of self.now) }
    {
        match self {
            FlowWord::Ask { .. } => Ok(Some(class_name(alloc, CLASS)?)),
            _ => Ok(None),
        }
    }

    fn value(&self, alloc: Global) -> Result<Bytes, Memory>
        ensures { IfOk result (λ b. b ≡ value_of self.now) }
    {
        match self {
            FlowWord::Ask { ask, .. } => ask_text(alloc, ask),
            FlowWord::Answer { answer, .. } => pair_text(alloc, answer.dcep(), answer.number()),
            FlowWord::Delete { dcep, scep } => pair_text(alloc, *dcep, *scep),
        }
    }

    fn result(&self) -> Option<u8>
        ensures { result ≡ result_of self.now }
    {
        match self {
            FlowWord::Answer { answer, .. } => Some(answer.result()),
            _ => None,
        }
    }
}

impl FlowMessage {
    /// A copy.
    pub fn copy(&self, alloc: Global) -> Result<FlowMessage, Memory>
        ensures { IfOk result (λ m. m ≡ self.now) }
    {
        let word = self.word.copy(alloc)?;
        Ok(FlowMessage {
            to: self.to,
            from: self.from,
            word,
        })
    }

    /// The CDAP message that it is.
    #[tactic(auto, unfolding(crate::specs::Messages::message_of))]
    pub fn message(&self, alloc: Global) -> Result<Message, Memory>
        ensures { IfOk result (λ m. m ≡ message_of self.now) }
    {
        let mut m = Message::new(self.word.operation(), self.word.invoke());
        m.class = self.word.class(alloc)?;
        m.name = Some(Bytes::copy_of(alloc, FLOWS)?);
        m.value = Some(self.word.value(alloc)?);
        m.result = self.word.result();
        m.destination_address = Some(self.to);
        m.source_address = Some(self.from);
        Ok(m)
    }
}
