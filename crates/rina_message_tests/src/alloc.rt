//! Asks for flows step by step, and the messages about flows as bytes.
use rina_alloc::{
    AskDo, AskEvent, Asked, Asking, FlowAnswer, FlowAsk, FlowMessage, FlowWord, Pair,
    a_message_has_one_spelling, a_message_is_short, an_answer_can_be_told, read, write,
};
use rina_base::{AppName, FlowName, Memory, NameError};
use std::alloc::Global;

const YES: AskEvent = AskEvent::Answer {
    result: 0,
    dcep: 1,
    number: 2,
};

/// What happens to an ask, and what it does.
type Step = (AskEvent, AskDo);

const DELETE: AskDo = AskDo::Delete { dcep: 1, scep: 2 };

static BOUND: [Step; 2] = [
    (AskEvent::Clock { late: false }, AskDo::Nothing),
    (YES, AskDo::Nothing),
];

static GIVEN_UP: [Step; 4] = [
    (AskEvent::Clock { late: false }, AskDo::Nothing),
    (YES, AskDo::Nothing),
    (AskEvent::Ended, DELETE),
    (AskEvent::Ended, AskDo::Nothing),
];

static TOO_LATE: [Step; 2] = [
    (AskEvent::Clock { late: true }, AskDo::TimedOut),
    (YES, DELETE),
];

/// Whether an ask does so at each step, and is bound so at the end.
fn goes(alloc: Global, steps: &[Step], bound: Option<Pair>) -> bool {
    let mut asking = Asking::new();
    for (event, does) in steps {
        if asking.step(alloc, *event) != Ok(*does) {
            return false;
        }
    }
    asking.bound == bound
}

/// Whether an ask is bound, given up after that, or made too late.
fn each_goes(alloc: Global) -> bool {
    let pair = Pair { far: 1, own: 2 };
    goes(alloc, &BOUND, Some(pair)) && goes(alloc, &GIVEN_UP, None) && goes(alloc, &TOO_LATE, None)
}

/// Whether the application is here, the ask is aged, the rule that denies it and the id that is drawn; the result, and the two numbers that are told with it.
type Case = (bool, bool, Option<u32>, Option<u32>, u8, u32, u32);

static CASES: [Case; 6] = [
    (false, false, None, Some(1), 2, 0, 0),
    (true, true, None, Some(1), 2, 0, 0),
    (false, false, Some(5), None, 2, 0, 0),
    (true, false, Some(5), Some(1), 1, 0, 5),
    (true, false, None, None, 3, 0, 255),
    (true, false, None, Some(1), 0, 1, 2),
];

/// Whether an ask is answered as its case says.
fn is_answered(alloc: Global, case: Case) -> bool {
    let (here, aged, denied, drawn, result, dcep, number) = case;
    let ask = AskEvent::Ask {
        here,
        aged,
        denied,
        drawn,
        used: 255,
        scep: 2,
    };
    let answer = AskDo::Answer {
        result,
        dcep,
        number,
    };
    let mut asked = Asked::new();
    asked.step(alloc, ask) == Ok(answer) && asked.bound.is_some() == (result == 0)
}

/// Whether each ask is answered as its case says.
fn all_are_answered(alloc: Global) -> bool {
    for case in &CASES {
        if !is_answered(alloc, *case) {
            return false;
        }
    }
    true
}

#[test]
fn an_ask_is_bound_and_given_up_and_answered_by_the_first_that_applies(rt: HostRuntime) {
    assert!(rt; each_goes(rt.alloc()) && all_are_answered(rt.alloc()));
}

fn ask(alloc: Global, destination: &[u8], source: &[u8]) -> Result<FlowAsk, NameError> {
    Ok(FlowAsk {
        flow: FlowName {
            src: 1,
            tick: 2,
            count: 0,
        },
        cube: 1,
        scep: 3,
        destination: AppName::read(alloc, destination)?,
        source: AppName::read(alloc, source)?,
    })
}

fn is_bar(byte: &u8) -> bool {
    *byte == b'|'
}

const fn answer(answer: FlowAnswer) -> FlowWord {
    FlowWord::Answer { invoke: 1, answer }
}

/// The longest name, of 129 bytes.
const LONGEST_NAME: &[u8] = b"\
aaaaaaaaaaaaaaaaaaaaaaaaaaaaaaaaaaaaaaaaaaaaaaaaaaaaaaaaaaaaaaaa/\
aaaaaaaaaaaaaaaaaaaaaaaaaaaaaaaaaaaaaaaaaaaaaaaaaaaaaaaaaaaaaaaa";

/// The place of the longest message, behind those of the table.
const LONGEST: usize = 6;

/// The word of an ask.
fn word_of(ask: Result<FlowAsk, NameError>) -> Option<FlowWord> {
    match ask {
        Ok(ask) => Some(FlowWord::Ask { invoke: 1, ask }),
        Err(_) => None,
    }
}

/// What the message says whose bytes stand at a place of the table, or the longest one.
fn word_at(alloc: Global, place: usize) -> Option<FlowWord> {
    match place {
        0 => word_of(ask(alloc, b"echo", b"ping")),
        1 => Some(FlowWord::Delete { dcep: 5, scep: 3 }),
        2 => Some(answer(FlowAnswer::Yes { dcep: 5, scep: 3 })),
        3 => Some(answer(FlowAnswer::Denied { rule: 2 })),
        4 => Some(answer(FlowAnswer::NotHere)),
        5 => Some(answer(FlowAnswer::NoIds { used: 255 })),
        _ => word_of(ask(alloc, LONGEST_NAME, LONGEST_NAME)),
    }
}

/// The bytes of each message, with a bar between them.
const MESSAGES: &[u8] = b"\
\x01\0\x01\x04\x02\0\x04\0\0\0\x01\x03\0\x04flow\x04\0\x05/flow\x06\0\x1d\0\0\0\x01\0\0\0\x02\0\0\0\0\x01\0\0\0\x03\0\x04echo\0\x04ping\x0b\0\x04\0\0\0\x02\x0c\0\x04\0\0\0\x01|\
\x01\0\x01\x06\x02\0\x04\0\0\0\0\x04\0\x05/flow\x06\0\x08\0\0\0\x05\0\0\0\x03\x0b\0\x04\0\0\0\x02\x0c\0\x04\0\0\0\x01|\
\x01\0\x01\x05\x02\0\x04\0\0\0\x01\x04\0\x05/flow\x06\0\x08\0\0\0\x05\0\0\0\x03\x07\0\x01\0\x0b\0\x04\0\0\0\x02\x0c\0\x04\0\0\0\x01|\
\x01\0\x01\x05\x02\0\x04\0\0\0\x01\x04\0\x05/flow\x06\0\x08\0\0\0\0\0\0\0\x02\x07\0\x01\x01\x0b\0\x04\0\0\0\x02\x0c\0\x04\0\0\0\x01|\
\x01\0\x01\x05\x02\0\x04\0\0\0\x01\x04\0\x05/flow\x06\0\x08\0\0\0\0\0\0\0\0\x07\0\x01\x02\x0b\0\x04\0\0\0\x02\x0c\0\x04\0\0\0\x01|\
\x01\0\x01\x05\x02\0\x04\0\0\0\x01\x04\0\x05/flow\x06\0\x08\0\0\0\0\0\0\0\xff\x07\0\x01\x03\x0b\0\x04\0\0\0\x02\x0c\0\x04\0\0\0\x01";

/// What is written of a message from 1 to 2.
fn written(alloc: Global, word: FlowWord) -> Option<Vec<u8>> {
    let m = FlowMessage {
        to: 2,
        from: 1,
        word,
    };
    write(alloc, &m).ok()
}

/// What is written of the message of a place.
fn written_at(alloc: Global, place: usize) -> Option<Vec<u8>> {
    match word_at(alloc, place) {
        Some(word) => written(alloc, word),
        None => None,
    }
}

/// Whether these bytes are written of the message of a place.
fn is_written(alloc: Global, place: usize, bytes: &[u8]) -> bool {
    match written_at(alloc, place) {
        Some(written) => written.as_slice() == bytes,
        None => false,
    }
}

/// Whether a message is read from bytes that are one, and none from others.
fn is_read(alloc: Global, bytes: &[u8], one: bool) -> bool {
    match read(alloc, bytes) {
        Ok(m) => m.is_some() == one,
        Err(Memory) => false,
    }
}

/// Whether each message is written as its bytes, and read from them.
fn all_are_so(alloc: Global) -> bool {
    for (place, bytes) in MESSAGES.split(is_bar).enumerate() {
        if !is_written(alloc, place, bytes) || !is_read(alloc, bytes, true) {
            return false;
        }
    }
    true
}

/// Bytes of no message, with a bar between them: a short one; a denial with a CEP-id, and an answer of result 4; a
/// deletion that wants a response, and one from nobody.
const OTHERS: &[u8] = b"\
\x01\0\x01\x06|\
\x01\0\x01\x05\x02\0\x04\0\0\0\x01\x04\0\x05/flow\x06\0\x08\0\0\0\x01\0\0\0\x02\x07\0\x01\x01\x0b\0\x04\0\0\0\x02\x0c\0\x04\0\0\0\x01|\
\x01\0\x01\x05\x02\0\x04\0\0\0\x01\x04\0\x05/flow\x06\0\x08\0\0\0\0\0\0\0\x02\x07\0\x01\x04\x0b\0\x04\0\0\0\x02\x0c\0\x04\0\0\0\x01|\
\x01\0\x01\x06\x02\0\x04\0\0\0\x01\x04\0\x05/flow\x06\0\x08\0\0\0\x05\0\0\0\x03\x0b\0\x04\0\0\0\x02\x0c\0\x04\0\0\0\x01|\
\x01\0\x01\x06\x02\0\x04\0\0\0\0\x04\0\x05/flow\x06\0\x08\0\0\0\x05\0\0\0\x03\x0b\0\x04\0\0\0\x02";

/// Whether no message is read from any of them.
fn none_is_read(alloc: Global) -> bool {
    for bytes in OTHERS.split(is_bar) {
        if !is_read(alloc, bytes, false) {
            return false;
        }
    }
    true
}

/// Whether the longest message has 322 bytes, and is read from them.
fn longest_is_so(alloc: Global) -> bool {
    match written_at(alloc, LONGEST) {
        Some(bytes) => bytes.len() == 322 && is_read(alloc, &bytes, true),
        None => false,
    }
}

#[test]
fn messages_have_these_bytes_and_322_at_most(rt: HostRuntime) {
    let alloc = rt.alloc();
    assert!(rt; all_are_so(alloc) && none_is_read(alloc) && longest_is_so(alloc));
    a_message_has_one_spelling();
    a_message_is_short();
    an_answer_can_be_told();
}
