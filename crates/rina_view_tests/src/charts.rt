//! What the commands `lost` and `chart` write of notes.
use crate::chart_rows::{CHART_ROWS, PICTURE_ROWS};
use rina_chart::look;
use rina_io::{MemSink, MemSource};
use std::alloc::Global;
use std::test::Fail;

/// All that is written of notes for some words.
fn written(alloc: Global, words: &str, notes: &str) -> Result<Vec<u8>, Fail> {
    let mut list = Vec::new(alloc);
    for word in words.split(" ") {
        list.push(String::from_str(alloc, word)?)?;
    }
    let mut source = MemSource::new(notes.as_bytes().to_vec(alloc)?, Vec::new(alloc));
    let mut sink = MemSink::new(Vec::new(alloc), Vec::new(alloc));
    let _status = look(alloc, list.as_slice(), &mut source, &mut sink);
    Ok(sink.bytes().to_vec(alloc)?)
}

/// Whether a line stands in a text.
fn has_line(text: &[u8], line: &[u8]) -> bool {
    text.split(|byte| *byte == b'\n').any(|other| other == line)
}

/// The first row of which something else is written, where there is one.
fn other_row<'a>(alloc: Global, rows: &'a str) -> Result<Option<&'a str>, Fail> {
    for row in rows.split("====\n") {
        let (asked, output) = row.split_once("----\n").ok_or("no output")?;
        let (words, notes) = asked.split_once("\n").ok_or("no notes")?;
        if written(alloc, words, notes)?.as_slice() != output.as_bytes() {
            return Ok(Some(row));
        }
    }
    Ok(None)
}

/// The first row whose line does not stand in what is written, where there is one.
fn other_picture<'a>(alloc: Global, rows: &'a str) -> Result<Option<&'a str>, Fail> {
    for row in rows.split("====\n") {
        let (asked, line) = row.split_once("----\n").ok_or("no line")?;
        let (words, notes) = asked.split_once("\n").ok_or("no notes")?;
        if !has_line(
            written(alloc, words, notes)?.as_slice(),
            line.trim_end().as_bytes(),
        ) {
            return Ok(Some(row));
        }
    }
    Ok(None)
}

#[test]
fn notes_have_their_tables_and_charts(rt: HostRuntime) -> Result<(), Fail> {
    assert_eq!(rt; other_row(rt.alloc(), CHART_ROWS)?, None);
    Ok(())
}

#[test]
fn pictures_have_their_arrows(rt: HostRuntime) -> Result<(), Fail> {
    assert_eq!(rt; other_picture(rt.alloc(), PICTURE_ROWS)?, None);
    Ok(())
}
