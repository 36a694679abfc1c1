//! Enrolments step by step, and the messages of a link as bytes.
use rina_base::{AppName, Memory, NameError};
use rina_cdap::CdapError;
use rina_enrol::{
    EnrolDo, EnrolEvent, Joiner, LinkMessage, Member, a_message_has_one_spelling,
    a_message_is_short, read, write,
};
use rina_newest::{Item, Version};
use std::alloc::Global;

/// What happens to one of the two ends, and what it does.
type Step = (EnrolEvent, EnrolDo);

static MEMBER: [Step; 3] = [
    (EnrolEvent::Start, EnrolDo::Nothing),
    (
        EnrolEvent::Connect { denied: None },
        EnrolDo::ConnectR { denied: None },
    ),
    (EnrolEvent::Start, EnrolDo::StartR),
];

static MEMBER_DENIES: [Step; 2] = [
    (
        EnrolEvent::Connect { denied: Some(257) },
        EnrolDo::ConnectR { denied: Some(257) },
    ),
    (EnrolEvent::Start, EnrolDo::Nothing),
];

static JOINER: [Step; 2] = [
    (EnrolEvent::ConnectR { denied: None }, EnrolDo::Start),
    (EnrolEvent::Item, EnrolDo::Nothing),
];

static JOINER_STOPS: [Step; 1] = [(EnrolEvent::Stop, EnrolDo::StopR)];

static JOINER_DENIED: [Step; 1] = [(EnrolEvent::ConnectR { denied: Some(257) }, EnrolDo::Nothing)];

static JOINER_LOST: [Step; 1] = [(EnrolEvent::Stop, EnrolDo::Nothing)];

/// Whether a joiner does so at each step.
fn joins(alloc: Global, joiner: &mut Joiner, steps: &[Step]) -> bool {
    for (event, does) in steps {
        if joiner.step(alloc, *event) != Ok(*does) {
            return false;
        }
    }
    true
}

/// Whether a new member does so at each step.
fn enrols(alloc: Global, steps: &[Step]) -> bool {
    let mut member = Member::new();
    for (event, does) in steps {
        if member.step(alloc, *event) != Ok(*does) {
            return false;
        }
    }
    true
}

/// Whether a joiner is enrolled when it was sent the last item, and does nothing after it lost the link.
fn is_enrolled(alloc: Global, joiner: &mut Joiner) -> bool {
    joins(alloc, joiner, &JOINER)
        && !joiner.enrolled
        && joins(alloc, joiner, &JOINER_STOPS)
        && joiner.enrolled
        && joiner.step(alloc, EnrolEvent::LinkLost).is_ok()
        && joins(alloc, joiner, &JOINER_LOST)
}

/// Whether one that is denied does nothing more.
fn is_denied(alloc: Global, joiner: &mut Joiner) -> bool {
    enrols(alloc, &MEMBER_DENIES) && joins(alloc, joiner, &JOINER_DENIED)
}

#[test]
fn a_joiner_is_enrolled_or_denied(rt: HostRuntime) {
    let mut joiner = Joiner::new();
    let mut denied = Joiner::new();
    assert!(rt;
        enrols(rt.alloc(), &MEMBER)
            && is_enrolled(rt.alloc(), &mut joiner)
            && is_denied(rt.alloc(), &mut denied)
    );
}

fn item(alloc: Global, key: &[u8], value: Option<&[u8]>) -> Result<Item, Memory> {
    let version = Version {
        tick: 3,
        count: 1,
        origin: 2,
    };
    Item::new(alloc, key, version, value)
}

fn is_bar(byte: &u8) -> bool {
    *byte == b'|'
}

/// A link state of sixteen links.
const LONGEST_VALUE: &[u8] = b"\
4294967295:65535,4294967295:65535,4294967295:65535,4294967295:65535,\
4294967295:65535,4294967295:65535,4294967295:65535,4294967295:65535,\
4294967295:65535,4294967295:65535,4294967295:65535,4294967295:65535,\
4294967295:65535,4294967295:65535,4294967295:65535,4294967295:65535";

/// The place of the longest message, behind those of the table.
const LONGEST: usize = 9;

/// A request to connect.
fn connect(alloc: Global, joiner: &[u8], member: &[u8]) -> Result<LinkMessage, NameError> {
    Ok(LinkMessage::Connect {
        invoke: 1,
        joiner: AppName::read(alloc, joiner)?,
        member: AppName::read(alloc, member)?,
    })
}

/// An item that is flooded.
fn flood(alloc: Global, key: &[u8], value: Option<&[u8]>) -> Option<LinkMessage> {
    match item(alloc, key, value) {
        Ok(item) => Some(LinkMessage::Flood { item }),
        Err(Memory) => None,
    }
}

/// An item of a member, sent to a joiner.
fn sent(alloc: Global, key: &[u8], value: Option<&[u8]>) -> Option<LinkMessage> {
    match item(alloc, key, value) {
        Ok(item) => Some(LinkMessage::Item { item }),
        Err(Memory) => None,
    }
}

/// The message whose bytes stand at a place of the table, or the longest one.
fn message_at(alloc: Global, place: usize) -> Option<LinkMessage> {
    match place {
        0 => connect(alloc, b"d/b", b"d/a").ok(),
        1 => Some(LinkMessage::ConnectR {
            invoke: 1,
            denied: None,
        }),
        2 => Some(LinkMessage::ConnectR {
            invoke: 1,
            denied: Some(257),
        }),
        3 => Some(LinkMessage::Start {
            invoke: 2,
            address: 2,
        }),
        4 => Some(LinkMessage::StartR { invoke: 2 }),
        5 => Some(LinkMessage::Stop { invoke: 1 }),
        6 => Some(LinkMessage::StopR { invoke: 1 }),
        7 => sent(alloc, b"/member/2", Some(b"b")),
        8 => flood(alloc, b"/dir/a", None),
        LONGEST => flood(alloc, b"/link/4294967295", Some(LONGEST_VALUE)),
        _ => None,
    }
}

/// The bytes of each message, with a bar between them.
const MESSAGES: &[u8] = b"\
\x01\0\x01\0\x02\0\x04\0\0\0\x01\x09\0\x03d/b\x0a\0\x03d/a|\
\x01\0\x01\x01\x02\0\x04\0\0\0\x01\x07\0\x01\0|\
\x01\0\x01\x01\x02\0\x04\0\0\0\x01\x06\0\x04\0\0\x01\x01\x07\0\x01\x01|\
\x01\0\x01\x0e\x02\0\x04\0\0\0\x02\x03\0\x05enrol\x04\0\x07/member\x06\0\x04\0\0\0\x02|\
\x01\0\x01\x0f\x02\0\x04\0\0\0\x02\x07\0\x01\0|\
\x01\0\x01\x10\x02\0\x04\0\0\0\x01\x03\0\x05enrol\x04\0\x07/member|\
\x01\0\x01\x11\x02\0\x04\0\0\0\x01\x03\0\x05enrol\x04\0\x07/member\x07\0\x01\0|\
\x01\0\x01\x04\x02\0\x04\0\0\0\0\x03\0\x05value\x04\0\x09/member/2\x06\0\x0e\0\0\0\x03\0\0\0\x01\0\0\0\x02\x01b|\
\x01\0\x01\x0c\x02\0\x04\0\0\0\0\x03\0\x05value\x04\0\x06/dir/a\x06\0\x0d\0\0\0\x03\0\0\0\x01\0\0\0\x02\0";

/// What is written of a message of the table.
fn written_at(alloc: Global, place: usize) -> Option<Vec<u8>> {
    match message_at(alloc, place) {
        Some(m) => write(alloc, &m).ok(),
        None => None,
    }
}

/// Whether these bytes are written of a message of the table.
fn is_written(alloc: Global, place: usize, bytes: &[u8]) -> bool {
    match written_at(alloc, place) {
        Some(written) => written.as_slice() == bytes,
        None => false,
    }
}

/// Whether a message is read from bytes that are one, and none from others.
fn is_read(alloc: Global, bytes: &[u8], one: bool) -> bool {
    match read(alloc, bytes) {
        Ok(m) => m.is_some() == one,
        Err(Memory) => false,
    }
}

/// Whether each message is written as its bytes, and read from them.
fn all_are_so(alloc: Global) -> bool {
    for (place, bytes) in MESSAGES.split(is_bar).enumerate() {
        if !is_written(alloc, place, bytes) || !is_read(alloc, bytes, true) {
            return false;
        }
    }
    true
}

/// Bytes of no message, with a bar between them: none at all; a START with no address, with a further field, and with
/// an address of five bytes; a deletion with a text.
const OTHERS: &[u8] = b"|\
\x01\0\x01\x0e\x02\0\x04\0\0\0\x02\x03\0\x05enrol\x04\0\x07/member|\
\x01\0\x01\x0e\x02\0\x04\0\0\0\x02\x03\0\x05enrol\x04\0\x07/member\x06\0\x04\0\0\0\x02\x08\0\0|\
\x01\0\x01\x0e\x02\0\x04\0\0\0\x02\x03\0\x05enrol\x04\0\x07/member\x06\0\x05\0\0\0\x02\0|\
\x01\0\x01\x0c\x02\0\x04\0\0\0\0\x03\0\x05value\x04\0\x06/dir/a\x06\0\x0e\0\0\0\x03\0\0\0\x01\0\0\0\x02\0b";

/// Whether no message is read from any of them.
fn none_is_read(alloc: Global) -> bool {
    for bytes in OTHERS.split(is_bar) {
        if !is_read(alloc, bytes, false) {
            return false;
        }
    }
    true
}

/// Whether the longest message has 325 bytes, and is read from them.
fn longest_is_so(alloc: Global) -> bool {
    match written_at(alloc, LONGEST) {
        Some(bytes) => bytes.len() == 325 && is_read(alloc, &bytes, true),
        None => false,
    }
}

/// Whether an item is not written whose key is no object name.
fn is_refused(alloc: Global) -> bool {
    match sent(alloc, b"dir", Some(b"1")) {
        Some(m) => write(alloc, &m).err() == Some(CdapError::BadValue { tag: 4 }),
        None => false,
    }
}

#[test]
fn messages_have_these_bytes_and_325_at_most(rt: HostRuntime) {
    let alloc = rt.alloc();
    assert!(rt;
        all_are_so(alloc) && none_is_read(alloc) && longest_is_so(alloc) && is_refused(alloc)
    );
    a_message_has_one_spelling();
    a_message_is_short();
}
