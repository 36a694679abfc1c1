//! Names, classes, numbers in decimal, rows and PDUs.
use rina_base::{
    AppName, Bytes, Class, Key, Memory, Name, NameError, ObjectName, PduKind, PduView, Seq,
    is_object_name, read_decimal, read_number,
};
use std::alloc::Global;

/// 64 bytes, each of which may stand in a name.
const LONG: &[u8] = b"abcdefghijklmnopqrstuvwxyz0123456789.-_abcdefghijklmnopqrstuvwxy";

/// The same, and one byte more.
const TOO_LONG: &[u8] = b"abcdefghijklmnopqrstuvwxyz0123456789.-_abcdefghijklmnopqrstuvwxyz";

fn is_space(b: &u8) -> bool {
    *b == b' '
}

fn name_is_copied(alloc: Global, name: &Name) -> bool {
    match name.copy(alloc) {
        Ok(copy) => copy.as_bytes() == LONG,
        Err(Memory) => false,
    }
}

fn name_is_read(alloc: Global) -> bool {
    match Name::read(alloc, LONG) {
        Ok(name) => name_is_copied(alloc, &name),
        Err(_) => false,
    }
}

fn app_is_copied(alloc: Global, app: &AppName) -> bool {
    match app.copy(alloc) {
        Ok(copy) => copy.is_ipc() && copy.as_bytes() == b"d/b".as_slice(),
        Err(Memory) => false,
    }
}

fn app_is_read(alloc: Global) -> bool {
    match AppName::read(alloc, b"d/b") {
        Ok(app) => app_is_copied(alloc, &app),
        Err(_) => false,
    }
}

fn object_is_read(alloc: Global) -> bool {
    match ObjectName::read(alloc, b"/dir/d!b") {
        Ok(Some(object)) => object.as_bytes() == b"/dir/d!b".as_slice(),
        _ => false,
    }
}

#[test]
fn names_are_read_and_copied(rt: HostRuntime) {
    let alloc = rt.alloc();
    assert!(rt; name_is_read(alloc) && app_is_read(alloc) && object_is_read(alloc));
}

/// Whether a text is no application name for want of its length.
fn has_bad_length(alloc: Global, text: &[u8], len: usize) -> bool {
    AppName::read(alloc, text).err() == Some(NameError::BadLength { len })
}

/// Whether the last digit of a word is the place of the first bad byte of what stands before it.
fn is_bad(alloc: Global, word: &[u8]) -> bool {
    match word.split_last() {
        Some((place, text)) => {
            let at = usize::from(place.saturating_sub(b'0'));
            AppName::read(alloc, text).err() == Some(NameError::BadByte { at })
        }
        None => false,
    }
}

/// Whether the first bad byte of each text is told.
fn bad_bytes_are_told(alloc: Global) -> bool {
    for word in b"aB!1 a_b/cD5 a/b/c3 D/b0 d/bB3".split(is_space) {
        if !is_bad(alloc, word) {
            return false;
        }
    }
    true
}

#[test]
fn the_first_bad_byte_of_a_name_is_told_and_each_part_has_1_to_64_bytes(rt: HostRuntime) {
    let alloc = rt.alloc();
    assert!(rt;
        bad_bytes_are_told(alloc)
            && has_bad_length(alloc, b"D/", 0)
            && has_bad_length(alloc, b"", 0)
            && has_bad_length(alloc, TOO_LONG, 65)
    );
}

/// Words behind a sign that says what each is: the name of an object (+) or none (-), a class (!) or none (?),
/// the number 7 (=) or no number of 32 bits (~).
const WORDS: &[u8] = b"\
+/ +/user +/dir/d!b +/a/b.c-d_9 - -user -// -/a/ -/A -/a//b \
!folder !value !cube !flow !service ?folders \
=7 =007 =0000000000007 ~4294967296 ~1a ~+1 ~-1 ~0x1";

/// Whether a text is the name of a class.
fn is_class(text: &[u8]) -> bool {
    match Class::read(text) {
        Some(class) => class.name() == text,
        None => false,
    }
}

/// Whether a word is what its sign says.
fn is_so(word: &[u8]) -> bool {
    match word {
        [b'+', text @ ..] => is_object_name(text),
        [b'-', text @ ..] => !is_object_name(text),
        [b'!', text @ ..] => is_class(text),
        [b'?', text @ ..] => Class::read(text).is_none(),
        [b'=', text @ ..] => read_number(text) == Some(7),
        [_, text @ ..] => read_number(text).is_none(),
        [] => false,
    }
}

/// Whether each word is what its sign says.
fn all_are_so() -> bool {
    for word in WORDS.split(is_space) {
        if !is_so(word) {
            return false;
        }
    }
    true
}

#[test]
fn objects_classes_and_numbers_have_these_words(rt: HostRuntime) {
    assert!(rt;
        all_are_so()
            && read_number(b"4294967295") == Some(u32::MAX)
            && read_decimal(u64::MAX, b"18446744073709551615") == Some(u64::MAX)
    );
}

/// Whether a row of bytes takes two, and another in place of the first.
fn grows(row: &mut Seq<u8>) -> bool {
    if row.push(3).is_err() || row.push(4).is_err() {
        return false;
    }
    if row.len() > 0 {
        row.set(0, 5);
    }
    row.get(1) == Some(&4) && row.get(2).is_none()
}

#[test]
fn a_row_grows(rt: HostRuntime) {
    let mut row = Seq::new(rt.alloc());
    let grown = grows(&mut row);
    let again = Bytes::from_vec(row.into_vec());
    assert!(rt; grown && again.as_slice() == [5, 4].as_slice());
}

const ACK: PduView<'static> = PduView {
    kind: PduKind::Ack,
    dst: 1,
    src: 2,
    qos: 3,
    dcep: 3,
    scep: 3,
    drf: false,
    first: false,
    last: false,
    seq: 0,
    ack: 3,
    right: 7,
    body: b"",
};

const KEY: Key = Key {
    kind: PduKind::Ack,
    src: 2,
    scep: 3,
    seq: 3,
};

fn has_key(alloc: Global) -> bool {
    match ACK.keep(alloc) {
        Ok(pdu) => pdu.key() == KEY,
        Err(Memory) => false,
    }
}

#[test]
fn an_acknowledgement_is_known_by_what_it_acknowledges(rt: HostRuntime) {
    assert!(rt; has_key(rt.alloc()));
}
