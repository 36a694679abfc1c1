//! Answering.
ghost use Rattle.std.specs.Prelude.{◌≡◌, true, false, None, Some, IfSome, is_ok, option_copied};
ghost use Rattle.rina_base.specs.ObjectNames.{IsObjectName};
ghost use Rattle.rina_rib.specs.Things.{shown};
ghost use Rattle.rina_answer.specs.Answers.{named, value_of, class_in, class_or, is_asked, create_told, delete_told, read_told, write_told, turn_told, at_name, told, Answers};

use crate::reply::{Shown, begin, fail, refuse, succeed};
use rina_base::{Memory, is_object_name};
use rina_cdap::{Message, operation};
use rina_rib::{Caller, Class, Rib};
use std::alloc::Global;

/// The value that a message gives, empty where it gives none.
fn value_in(m: &Message) -> &[u8]
    ensures { result.now ≡ value_of m.now }
{
    match &m.value {
        Some(value) => value.as_slice(),
        None => b"".as_slice(),
    }
}

/// The class that a message gives. None where it gives none, or one that is unknown.
fn class_asked(m: &Message) -> Option<Class>
    ensures { result ≡ class_in m.now.class }
{
    match &m.class {
        Some(name) => Class::read(name.as_bytes()),
        None => None,
    }
}

/// The class that a message writes: that of the object, where it gives none.
fn class_written(kept: Class, m: &Message) -> Option<Class>
    ensures { result ≡ class_or kept m.now.class }
{
    match &m.class {
        Some(name) => Class::read(name.as_bytes()),
        None => Some(kept),
    }
}

/// The value that an object will show, where a service runs or not.
fn value_shown<'a>(class: Class, on: bool, value: &'a [u8]) -> &'a [u8]
    ensures { result.now ≡ shown class on value.entry.now }
{
    match class {
        Class::Service => {
            if on {
                b"on".as_slice()
            } else {
                b"off".as_slice()
            }
        }
        _ => value,
    }
}

/// The name of an object that a message gives.
fn name_in(m: &Message) -> Option<&[u8]>
    ensures name { option_copied result ≡ named m.now.name }
    ensures is_name { IfSome result (λ n. IsObjectName n.now) }
{
    match &m.name {
        Some(name) => {
            if is_object_name(name.as_slice()) {
                Some(name.as_slice())
            } else {
                None
            }
        }
        None => None,
    }
}

#[tactic(auto, unfolding(crate::specs::Answers::create_told))]
fn create(alloc: Global, rib: &mut Rib, m: &Message, name: &[u8]) -> Result<Message, Memory>
    requires { IsObjectName name.now }
    ensures { Answers result rib.old rib.new (create_told rib.old m.now name.now) }
{
    let base = begin(alloc, m)?;
    let Some(class) = class_asked(m) else {
        return Ok(refuse(base, 6));
    };
    let value = value_in(m);
    let made = Shown::new(alloc, class, 0, value_shown(class, false, value))?;
    match rib.create(alloc, Caller::Cdap, name, class, value) {
        Ok(instance) => Ok(succeed(base, made.numbered(instance))),
        Err(error) => fail(base, error),
    }
}

#[tactic(auto, unfolding(crate::specs::Answers::delete_told))]
fn delete(alloc: Global, rib: &mut Rib, m: &Message, name: &[u8]) -> Result<Message, Memory>
    requires { IsObjectName name.now }
    ensures { Answers result rib.old rib.new (delete_told rib.old m.now name.now) }
{
    let base = begin(alloc, m)?;
    let Ok(object) = rib.read(name) else {
        return Ok(refuse(base, 1));
    };
    let was = Shown::new(alloc, object.class, object.instance, object.value)?;
    match rib.delete(Caller::Cdap, name) {
        Ok(()) => Ok(succeed(base, was)),
        Err(error) => fail(base, error),
    }
}

#[tactic(auto, unfolding(crate::specs::Answers::read_told))]
fn read(alloc: Global, rib: &Rib, m: &Message, name: &[u8]) -> Result<Message, Memory>
    requires { IsObjectName name.now }
    ensures { Answers result rib.now rib.now (read_told rib.now m.now name.now) }
{
    let base = begin(alloc, m)?;
    let Ok(object) = rib.read(name) else {
        return Ok(refuse(base, 1));
    };
    let is = Shown::new(alloc, object.class, object.instance, object.value)?;
    Ok(succeed(base, is))
}

#[tactic(auto, unfolding(crate::specs::Answers::write_told))]
fn write(alloc: Global, rib: &mut Rib, m: &Message, name: &[u8]) -> Result<Message, Memory>
    requires { IsObjectName name.now }
    ensures { Answers result rib.old rib.new (write_told rib.old m.now name.now) }
{
    let base = begin(alloc, m)?;
    let Ok(object) = rib.read(name) else {
        return Ok(refuse(base, 1));
    };
    let Some(class) = class_written(object.class, m) else {
        return Ok(refuse(base, 5));
    };
    let value = value_in(m);
    let will = if matches!(object.class, Class::Service) {
        object.value
    } else {
        value
    };
    let will_be = Shown::new(alloc, object.class, object.instance, will)?;
    match rib.write(alloc, Caller::Cdap, name, class, value) {
        Ok(()) => Ok(succeed(base, will_be)),
        Err(error) => fail(base, error),
    }
}

#[tactic(auto, unfolding(crate::specs::Answers::turn_told))]
fn start(alloc: Global, rib: &mut Rib, m: &Message, name: &[u8]) -> Result<Message, Memory>
    requires { IsObjectName name.now }
    ensures { Answers result rib.old rib.new (turn_told rib.old m.now 14 name.now true) }
{
    let base = begin(alloc, m)?;
    let Ok(object) = rib.read(name) else {
        return Ok(refuse(base, 1));
    };
    let value = value_shown(object.class, true, object.value);
    let will_be = Shown::new(alloc, object.class, object.instance, value)?;
    match rib.start(Caller::Cdap, name) {
        Ok(()) => Ok(succeed(base, will_be)),
        Err(error) => fail(base, error),
    }
}

#[tactic(auto, unfolding(crate::specs::Answers::turn_told))]
fn stop(alloc: Global, rib: &mut Rib, m: &Message, name: &[u8]) -> Result<Message, Memory>
    requires { IsObjectName name.now }
    ensures { Answers result rib.old rib.new (turn_told rib.old m.now 16 name.now false) }
{
    let base = begin(alloc, m)?;
    let Ok(object) = rib.read(name) else {
        return Ok(refuse(base, 1));
    };
    let value = value_shown(object.class, false, object.value);
    let will_be = Shown::new(alloc, object.class, object.instance, value)?;
    match rib.stop(Caller::Cdap, name) {
        Ok(()) => Ok(succeed(base, will_be)),
        Err(error) => fail(base, error),
    }
}

/// Whether an operation is asked of objects.
#[tactic(auto, unfolding(crate::specs::Answers::is_asked))]
fn is_request(op: u8) -> bool
    ensures { result ≡ is_asked op }
{
    op == operation::CREATE
        || op == operation::DELETE
        || op == operation::READ
        || op == operation::WRITE
        || op == operation::START
        || op == operation::STOP
}

fn answer_at(alloc: Global, rib: &mut Rib, m: &Message, name: &[u8]) -> Result<Message, Memory>
    requires { IsObjectName name.now }
    ensures { Answers result rib.old rib.new (at_name rib.old m.now (Some name.now)) }
{
    if m.operation == operation::CREATE {
        create(alloc, rib, m, name)
    } else if m.operation == operation::DELETE {
        delete(alloc, rib, m, name)
    } else if m.operation == operation::READ {
        read(alloc, rib, m, name)
    } else if m.operation == operation::WRITE {
        write(alloc, rib, m, name)
    } else if m.operation == operation::START {
        start(alloc, rib, m, name)
    } else {
        stop(alloc, rib, m, name)
    }
}

/// What the objects answer to a message, as CDAP may change them. A request to create, delete, read, write, start or
/// stop is answered by its response, whose result is 0, or the number of the refusal: 1 also where there is no name,
/// 6 also where create has no class that is known, 5 also where write has an unknown one. At result 0 it shows the
/// object: as it was after delete. Any other message is answered by result 6. A call that fails changes nothing. A message
/// without a name is answered whatever memory there is.
#[tactic(auto, unfolding(crate::specs::Answers::told))]
pub fn answer(alloc: Global, rib: &mut Rib, m: &Message) -> Result<Message, Memory>
    ensures answers { Answers result rib.old rib.new (told rib.old m.now) }
    ensures unnamed { m.now.name ≡ None → is_ok result ≡ true }
{
    if !is_request(m.operation) {
        return Ok(refuse(begin(alloc, m)?, 6));
    }
    match name_in(m) {
        Some(name) => answer_at(alloc, rib, m, name),
        None => Ok(refuse(begin(alloc, m)?, 1)),
    }
}
