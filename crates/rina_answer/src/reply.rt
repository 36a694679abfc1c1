//! Answers.
ghost use Rattle.std.specs.Prelude.{◌≡◌, IfOk, None, is_ok, true};
ghost use Rattle.std.specs.Result.{result_ok};
ghost use Rattle.rina_base.specs.Classes.{class_text};
ghost use Rattle.rina_rib.specs.Things.{thing};
ghost use Rattle.rina_answer.specs.Answers.{response_of, begun, refused, succeeded, failed};

use rina_base::{Bytes, Memory, Name};
use rina_cdap::Message;
use rina_rib::{Class, RibError};
use std::alloc::Global;
use std::marker::Model;

/// What an answer shows of an object, copied before the object changes. A contract sees the object.
#[derive(Drop)]
pub(crate) struct Shown {
    class: Class,
    class_name: Name,
    instance: u64,
    value: Bytes,
}

impl Model for Shown {
    ghost use Rattle.std.specs.Prelude.{◌≡◌};
    ghost use Rattle.rina_base.specs.Classes.{class_text};
    ghost use Rattle.rina_rib.specs.Things.{Thing, thing};

    ghost Value = { Thing };

    ghost view = { λ s. thing s.class s.instance s.value };

    ghost invariant = { λ s. s.class_name ≡ class_text s.class };
}

/// The name of a class.
fn class_name(alloc: Global, class: Class) -> Result<Name, Memory>
    ensures { IfOk result (λ n. n ≡ class_text class) }
{
    match Name::read(alloc, class.name()) {
        Ok(name) => Ok(name),
        Err(_) => Err(Memory),
    }
}

impl Shown {
    /// What is shown of an object of a class, a number and a value.
    pub(crate) fn new(
        alloc: Global,
        class: Class,
        instance: u64,
        value: &[u8],
    ) -> Result<Shown, Memory>
        ensures { IfOk result (λ s. s ≡ thing class instance value.now) }
    {
        let class_name = class_name(alloc, class)?;
        let value = Bytes::copy_of(alloc, value)?;
        Ok(Shown {
            class,
            class_name,
            instance,
            value,
        })
    }

    /// The same with another number.
    pub(crate) fn numbered(self, instance: u64) -> Shown
        ensures { result ≡ record self { instance = instance } }
    {
        Shown {
            class: self.class,
            class_name: self.class_name,
            instance,
            value: self.value,
        }
    }
}

/// The number of the answer to an operation.
#[tactic(auto, unfolding(crate::specs::Answers::response_of, rina_cdap::specs::Messages::is_response))]
fn response_number(m: &Message) -> u8
    ensures { result ≡ response_of m.now.operation }
{
    if m.is_response() {
        m.operation
    } else {
        m.operation + 1
    }
}

/// A copy of the name that was asked with.
fn name_copy(alloc: Global, m: &Message) -> Result<Option<Bytes>, Memory>
    ensures name { IfOk result (λ n. n ≡ m.now.name) }
    ensures unnamed { m.now.name ≡ None → is_ok result ≡ true }
{
    match &m.name {
        Some(name) => Ok(Some(Bytes::copy_of(alloc, name.as_slice())?)),
        None => Ok(None),
    }
}

/// What each answer has: the response's number, and the invoke id and the name that were asked with.
#[tactic(auto, unfolding(crate::specs::Answers::begun))]
pub(crate) fn begin(alloc: Global, m: &Message) -> Result<Message, Memory>
    ensures begun { IfOk result (λ b. b ≡ begun m.now) }
    ensures unnamed { m.now.name ≡ None → is_ok result ≡ true }
{
    let name = name_copy(alloc, m)?;
    let mut base = Message::new(response_number(m), m.invoke);
    base.name = name;
    Ok(base)
}

/// The answer that tells the number of a refusal.
pub(crate) fn refuse(base: Message, number: u8) -> Message
    ensures { result ≡ refused base number }
{
    let mut answer = base;
    answer.result = Some(number);
    answer
}

/// The answer that shows the object.
pub(crate) fn succeed(base: Message, shown: Shown) -> Message
    ensures { result ≡ succeeded base shown }
{
    let mut answer = base;
    answer.class = Some(shown.class_name);
    answer.instance = Some(shown.instance);
    answer.value = Some(shown.value);
    answer.result = Some(0);
    answer
}

/// The answer to an operation that was refused.
pub(crate) fn fail(base: Message, error: RibError) -> Result<Message, Memory>
    ensures { result_ok result ≡ failed base error }
{
    match error {
        RibError::Memory => Err(Memory),
        RibError::NoObject => Ok(refuse(base, 1)),
        RibError::Exists => Ok(refuse(base, 2)),
        RibError::NoParent => Ok(refuse(base, 3)),
        RibError::HasChildren => Ok(refuse(base, 4)),
        RibError::WrongClass { .. } => Ok(refuse(base, 5)),
        RibError::NotAllowed { .. } => Ok(refuse(base, 6)),
    }
}
