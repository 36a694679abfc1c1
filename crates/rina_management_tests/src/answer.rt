//! What a RIB answers to CDAP messages.
use rina_answer::answer;
use rina_base::{Bytes, Memory, Name, read_decimal};
use rina_cdap::Message;
use rina_rib::Rib;
use std::alloc::Global;

/// A request to read the object `/user`, with invoke id 1.
const REQUEST: [u8; 19] = [
    1, 0, 1, 8, 2, 0, 4, 0, 0, 0, 1, 4, 0, 5, 0x2f, 0x75, 0x73, 0x65, 0x72,
];

/// Its response: the folder is object 6, and has an empty value.
const RESPONSE: [u8; 46] = [
    1, 0, 1, 9, 2, 0, 4, 0, 0, 0, 1, 3, 0, 6, 0x66, 0x6f, 0x6c, 0x64, 0x65, 0x72, 4, 0, 5, 0x2f,
    0x75, 0x73, 0x65, 0x72, 5, 0, 8, 0, 0, 0, 0, 0, 0, 0, 6, 6, 0, 0, 7, 0, 1, 0,
];

/// What is answered to the bytes of a request.
fn answered(alloc: Global, rib: &mut Rib, request: &[u8]) -> Result<Message, Memory> {
    match rina_cdap::read(alloc, request) {
        Ok(asked) => answer(alloc, rib, &asked),
        Err(_) => Err(Memory),
    }
}

/// Whether a message is written as these bytes.
fn is_written(alloc: Global, told: &Message, bytes: &[u8]) -> bool {
    match rina_cdap::write(alloc, told) {
        Ok(written) => written.as_slice() == bytes,
        Err(_) => false,
    }
}

/// Whether the folder `/user` is read.
fn folder_is_read(alloc: Global, rib: &mut Rib) -> bool {
    match answered(alloc, rib, &REQUEST) {
        Ok(told) => is_written(alloc, &told, &RESPONSE),
        Err(Memory) => false,
    }
}

/// Requests one after the other: an operation, a name, a class and the result that comes; `-` is left out.
const ASKED: &str = "\
4 /user/s service 0
4 /user/s service 2
4 /user/a/b value 3
4 /dir/a value 6
4 /user/c cube 6
4 /user/n - 6
4 /user/n thing 6
4 - value 1
14 /user/s - 0
16 /user/s - 0
14 /user - 6
16 /x - 1
12 /x thing 1
12 /user/s thing 5
12 /user/s value 5
12 /user/s - 6
4 /user/v value 0
12 /user/v - 0
6 / - 4
6 /cube - 6
6 /user/v - 0
8 /user/v - 1
0 - - 6
9 /user - 6";

/// A word, where it is not left out.
fn given(word: Option<&str>) -> Option<&[u8]> {
    match word {
        Some("-") | None => None,
        Some(word) => Some(word.as_bytes()),
    }
}

/// The number of a word.
fn number(word: Option<&str>) -> Option<u8> {
    let number = read_decimal(255, word?.as_bytes())?;
    Some(number as u8)
}

/// Gives a request its name, where it has one.
fn add_name(alloc: Global, m: &mut Message, name: Option<&[u8]>) -> bool {
    match name {
        Some(name) => {
            m.name = Bytes::copy_of(alloc, name).ok();
            m.name.is_some()
        }
        None => true,
    }
}

/// Gives a request its class, where it has one.
fn add_class(alloc: Global, m: &mut Message, class: Option<&[u8]>) -> bool {
    match class {
        Some(class) => {
            m.class = Name::read(alloc, class).ok();
            m.class.is_some()
        }
        None => true,
    }
}

/// Whether a request has this result.
fn results(alloc: Global, rib: &mut Rib, m: &Message, wanted: Option<u8>) -> bool {
    match answer(alloc, rib, m) {
        Ok(told) => told.result == wanted,
        Err(Memory) => false,
    }
}

/// Whether the result that a line names comes.
fn line_comes(alloc: Global, rib: &mut Rib, line: &str) -> bool {
    let mut words = line.split_ascii_whitespace();
    let Some(operation) = number(words.next()) else {
        return false;
    };
    let mut m = Message::new(operation, 0);
    add_name(alloc, &mut m, given(words.next()))
        && add_class(alloc, &mut m, given(words.next()))
        && results(alloc, rib, &m, number(words.next()))
}

/// Whether each result comes.
fn each_comes(alloc: Global, rib: &mut Rib) -> bool {
    for line in ASKED.lines() {
        if !line_comes(alloc, rib, line) {
            return false;
        }
    }
    true
}

/// Whether a new RIB answers so.
fn all_come(alloc: Global) -> bool {
    match Rib::new(alloc) {
        Ok(mut rib) => folder_is_read(alloc, &mut rib) && each_comes(alloc, &mut rib),
        Err(Memory) => false,
    }
}

#[test]
fn a_folder_is_read_and_each_result_comes(rt: HostRuntime) {
    assert!(rt; all_come(rt.alloc()));
}
