//! Words of the command line that are no text, or too long.
use crate::schedule::parted;
use rina_io::read_words;
use std::alloc::Global;
use std::env::FillError;
use std::rt::Env;

/// A command line, with the program's name first. A zero byte stands before each word.
#[derive(Drop)]
struct Line<'a> {
    words: &'a [u8],
}

fn is_zero(byte: &u8) -> bool {
    *byte == 0
}

/// The word at a place of a command line.
fn word_at(line: &[u8], place: usize) -> Option<&[u8]> {
    for (zeros, word) in line.split(is_zero).enumerate() {
        if zeros > place {
            return Some(word);
        }
    }
    None
}

impl Env for Line<'_> {
    fn arg(&self, place: usize, buffer: &mut [u8]) -> Result<usize, FillError> {
        let Some(word) = word_at(self.words, place) else {
            return Err(FillError::NotPresent);
        };
        if word.len() > buffer.len() {
            return Err(FillError::TooLong);
        }
        buffer[..word.len()].copy_from_slice(word);
        Ok(word.len())
    }

    fn var(&self, _name: &str, _buffer: &mut [u8]) -> Result<usize, FillError> {
        Err(FillError::NotPresent)
    }

    fn var_at(&self, _place: usize, _buffer: &mut [u8]) -> Result<usize, FillError> {
        Err(FillError::NotPresent)
    }
}

/// Command lines, a bar, and the words that are read behind the program's name, each behind a zero byte.
const LINES: &[u8] = b"\
|\n\
\0rlemu|\n\
\0\xff\0go|\0go\n\
\0rlemu\0\xff|\0\xef\xbf\xbd\n\
\0rlemu\0run\0\xc3|\0run\0\xef\xbf\xbd\n\
\0rlemu\0\
rrrrrrrrrrrrrrrrrrrrrrrrrrrrrrrrrrrrrrrrrrrrrrrrrrrrrrrrrrrr\
rrrrrrrrrrrrrrrrrrrrrrrrrrrrrrrrrrrrrrrrrrrrrrrrrrrrrrrrrrrr\
rrrrrrrrrrrrrrrrrrrrrrrrrrrrrrrrrrrrrrrrrrrrrrrrrrrrrrrrrrrr\
rrrrrrrrrrrrrrrrrrrrrrrrrrrrrrrrrrrrrrrrrrrrrrrrrrrrrrrrrrrr\
rrrrrrrrrrrrrrrrrrrrrrrrrrrrrrrrrrrrrrrrrrrrrrrrrrrrrrrrrrrr|\0\xef\xbf\xbd";

/// Adds words, each behind a zero byte.
fn add_words(text: &mut Vec<u8>, words: &[String]) -> bool {
    for word in words {
        if text.push(0).is_err() || text.extend_from_slice(word.as_bytes()).is_err() {
            return false;
        }
    }
    true
}

/// Whether words are those of a text.
fn are_words(alloc: Global, words: &[String], wanted: &[u8]) -> bool {
    let mut text = Vec::new(alloc);
    add_words(&mut text, words) && text.as_slice() == wanted
}

/// Whether these words are read of a command line.
fn are_read(alloc: Global, line: Line<'_>, wanted: &[u8]) -> bool {
    match read_words(alloc, &line) {
        Ok(words) => are_words(alloc, words.as_slice(), wanted),
        Err(_) => false,
    }
}

/// Whether the words behind the bar of a row are read of what stands before it.
fn is_so(alloc: Global, row: &[u8]) -> bool {
    let (words, wanted) = parted(row);
    are_read(alloc, Line { words }, wanted)
}

fn is_end(byte: &u8) -> bool {
    *byte == b'\n'
}

#[test]
fn a_word_that_is_no_text_is_another_one(rt: HostRuntime) {
    for row in LINES.split(is_end) {
        assert!(rt; is_so(rt.alloc(), row));
    }
}
