//! CDAP messages as bytes.
use rina_base::{Bytes, Name, NameError};
use rina_cdap::{CdapError, Message, operation, put_number, read, take_number, write};
use std::alloc::Global;

/// A request to read the object `/user`, with invoke id 1.
const REQUEST: [u8; 19] = [
    1, 0, 1, 8, 2, 0, 4, 0, 0, 0, 1, 4, 0, 5, 0x2f, 0x75, 0x73, 0x65, 0x72,
];

/// Its response: the folder is object 6, and has an empty value.
const RESPONSE: [u8; 46] = [
    1, 0, 1, 9, 2, 0, 4, 0, 0, 0, 1, 3, 0, 6, 0x66, 0x6f, 0x6c, 0x64, 0x65, 0x72, 4, 0, 5, 0x2f,
    0x75, 0x73, 0x65, 0x72, 5, 0, 8, 0, 0, 0, 0, 0, 0, 0, 6, 6, 0, 0, 7, 0, 1, 0,
];

/// A message of other fields.
const OTHER: [u8; 55] = [
    1, 0, 1, 1, 2, 0, 4, 0, 0, 1, 0, 5, 0, 8, 0, 0, 0, 0, 0, 0, 1, 2, 7, 0, 1, 1, 8, 0, 2, 110,
    111, 9, 0, 3, 100, 47, 98, 10, 0, 1, 97, 11, 0, 4, 0, 0, 0, 2, 12, 0, 4, 1, 2, 3, 4,
];

fn names_user(m: &Message) -> bool {
    match &m.name {
        Some(name) => name.as_slice() == b"/user".as_slice(),
        None => false,
    }
}

fn is_request(m: &Message) -> bool {
    m.operation == operation::READ
        && m.invoke == 1
        && names_user(m)
        && m.class.is_none()
        && m.value.is_none()
        && m.result.is_none()
}

fn is_other(m: &Message) -> bool {
    m.invoke == 256
        && m.instance == Some(258)
        && m.result == Some(1)
        && m.destination_address == Some(2)
        && m.source_address == Some(0x01020304)
}

/// Whether a message is written as these bytes.
fn is_written(alloc: Global, m: &Message, bytes: &[u8]) -> bool {
    match write(alloc, m) {
        Ok(written) => written.as_slice() == bytes,
        Err(_) => false,
    }
}

/// Whether the fields of one of the two messages are read as they were written.
fn is_read(alloc: Global, bytes: &[u8], requests: bool) -> bool {
    match read(alloc, bytes) {
        Ok(m) => (if requests {
            is_request(&m)
        } else {
            is_other(&m)
        }) && is_written(alloc, &m, bytes),
        Err(_) => false,
    }
}

/// The response of a class, a name and a value.
fn response(class: Name, name: Bytes, value: Bytes) -> Message {
    Message {
        operation: operation::READ + 1,
        invoke: 1,
        class: Some(class),
        name: Some(name),
        instance: Some(6),
        value: Some(value),
        result: Some(0),
        reason: None,
        source_name: None,
        destination_name: None,
        destination_address: None,
        source_address: None,
    }
}

fn folder(alloc: Global) -> Result<Message, NameError> {
    let class = Name::read(alloc, b"folder")?;
    let name = Bytes::copy_of(alloc, b"/user")?;
    Ok(response(class, name, Bytes::new(alloc)))
}

fn folder_is_written(alloc: Global) -> bool {
    match folder(alloc) {
        Ok(m) => is_written(alloc, &m, &RESPONSE),
        Err(_) => false,
    }
}

#[test]
fn messages_are_read_and_written(rt: HostRuntime) {
    let alloc = rt.alloc();
    assert!(rt;
        is_read(alloc, &REQUEST, true) && is_read(alloc, &OTHER, false) && folder_is_written(alloc)
    );
}

/// Rows with a byte 255 between them. A row is a fault by its number and what it names, and the bytes that have it.
const FAULTS: &[u8] = &[
    1, 1, // nothing at all: tag 1 is missing
    255, 2, 0, 1, 0, // the first field ends within its length
    255, 1, 2, 1, 0, 1, 8, // no invoke id
    255, 1, 1, 2, 0, 4, 0, 0, 0, 1, // no operation
    255, 1, 7, 1, 0, 1, 9, 2, 0, 4, 0, 0, 0, 1, // a response without a result
    255, 6, 7, 1, 0, 1, 8, 2, 0, 4, 0, 0, 0, 1, 7, 0, 1, 0, // a request with a result
    255, 2, 4, 1, 0, 1, 8, 2, 0, 4, 0, 0, 0, // the second field is short
    255, 3, 1, 1, 0, 1, 8, 1, 0, 1, 8, // an operation twice
    255, 2, 4, 1, 0, 1, 8, 1, 0, 2, 8, // a field that is short, before it comes twice
    255, 4, 0, 0, 0, 0, // tag 0
    255, 4, 4, 1, 0, 1, 8, 13, 0, 0, // tag 13
    255, 4, 7, 2, 0, 4, 0, 0, 0, 1, 1, 0, 1, 8, // a tag below the one before it
    255, 5, 18, 1, 0, 1, 18, // operation 18
    255, 6, 1, 1, 0, 2, 18, 18, // an operation of two bytes
    255, 6, 3, 1, 0, 1, 8, 3, 0, 1, 0x2f, // a class that is no name
    255, 6, 4, 1, 0, 1, 8, 4, 0, 1, 0x61, // an object name without a slash
    255, 6, 5, 5, 0, 1, 0, // an instance of one byte
    255, 6, 9, 9, 0, 1, 0x2f, // an application name of a slash
];

/// The fault of a number and of what it names.
fn fault(number: u8, named: u8) -> CdapError {
    match number {
        1 => CdapError::Missing { tag: named },
        2 => CdapError::Short {
            at: usize::from(named),
        },
        3 => CdapError::Twice { tag: named },
        4 => CdapError::BadTag {
            at: usize::from(named),
        },
        5 => CdapError::BadOp { n: named },
        _ => CdapError::BadValue { tag: named },
    }
}

/// Whether a row has the fault that it names.
fn is_faulty(alloc: Global, row: &[u8]) -> bool {
    match row {
        [number, named, bytes @ ..] => { read(alloc, bytes).err() == Some(fault(*number, *named)) }
        _ => false,
    }
}

fn is_end(byte: &u8) -> bool {
    *byte == 255
}

/// Whether each row has its fault.
fn all_are_faulty(alloc: Global) -> bool {
    for row in FAULTS.split(is_end) {
        if !is_faulty(alloc, row) {
            return false;
        }
    }
    true
}

/// Whether the first fault of a message that is changed in steps is told each time.
fn faults_are_told(alloc: Global, m: &mut Message) -> bool {
    let unknown = write(alloc, m).err();
    m.operation = 17;
    let unanswered = write(alloc, m).err();
    m.operation = 16;
    m.result = Some(0);
    let named = write(alloc, m).err();
    m.name = None;
    let answered = write(alloc, m).err();
    unknown == Some(CdapError::BadOp { n: 19 })
        && unanswered == Some(CdapError::Missing { tag: 7 })
        && named == Some(CdapError::BadValue { tag: 4 })
        && answered == Some(CdapError::BadValue { tag: 7 })
}

/// Whether a message of no operation and a name of no object is not written.
fn is_unwritten(alloc: Global) -> bool {
    let mut m = Message::new(19, 1);
    m.name = Bytes::copy_of(alloc, b"user").ok();
    faults_are_told(alloc, &mut m)
}

#[test]
fn the_first_fault_is_told(rt: HostRuntime) {
    assert!(rt; all_are_faulty(rt.alloc()) && is_unwritten(rt.alloc()));
}

/// Whether a number is taken as it was put.
fn is_taken(out: &mut Vec<u8>) -> bool {
    put_number(out, 0x01020304).is_ok()
        && out.push(9).is_ok()
        && out.as_slice() == [1, 2, 3, 4, 9].as_slice()
        && take_number(out) == Some((0x01020304, [9].as_slice()))
        && take_number(&[1, 2, 3]).is_none()
}

#[test]
fn a_number_is_taken_as_it_was_put(rt: HostRuntime) {
    assert!(rt; is_taken(&mut Vec::new(rt.alloc())));
}
