//! The ends of flows and the write-offs that notes show.
ghost use Rattle.std.specs.Prelude.{◌≡◌, ◌≤◌, ◌++◌, [], length, drop, IfOk, OnOk};
ghost use Rattle.std.specs.List.{cons_option};
ghost use Rattle.rina_view.specs.Shown.{sent_entry, got_entry, is_end, entry_of, entries_in, end_at, ends_in, off_at, offs_in};

use crate::shown::{End, Entry, Off};
use rina_base::{Memory, Seq};
use rina_report::{Answer, CauseNote, Note, PortNote};
use std::alloc::{AllocError, Global};

#[tactic(auto, unfolding(crate::specs::Shown::sent_entry))]
fn sent_entry(note: &Note) -> Option<Entry>
    ensures { result ≡ sent_entry note.now }
{
    match note {
        Note::Line {
            answer: Answer::SentEntry { at, num, bytes },
            ..
        } => Some(Entry {
            at: *at,
            num: *num,
            len: bytes.len() as u64,
        }),
        _ => None,
    }
}

#[tactic(auto, unfolding(crate::specs::Shown::got_entry))]
fn got_entry(note: &Note) -> Option<Entry>
    ensures { result ≡ got_entry note.now }
{
    match note {
        Note::Line {
            answer: Answer::GotEntry { at, num, bytes },
            ..
        } => Some(Entry {
            at: *at,
            num: *num,
            len: bytes.len() as u64,
        }),
        _ => None,
    }
}

#[tactic(auto, unfolding(crate::specs::Shown::is_end))]
fn is_end(note: &Note) -> bool
    ensures { result ≡ is_end note.now }
{
    matches!(
        note,
        Note::Line {
            answer: Answer::Flow(_),
            ..
        }
    )
}

/// Which entries of a journal: the SDUs that an end sent, or those that it got.
#[derive(Clone, Copy, Debug, PartialEq, Eq)]
pub(crate) enum EntryKind {
    Sent,
    Got,
}

fn entry_of(kind: EntryKind, note: &Note) -> Option<Entry>
    ensures { result ≡ entry_of kind note.now }
{
    match kind {
        EntryKind::Sent => sent_entry(note),
        EntryKind::Got => got_entry(note),
    }
}

/// The SDUs that notes show as sent, or as got, up to the next end.
fn entries_in(alloc: Global, kind: EntryKind, notes: &[Note]) -> Result<Seq<Entry>, Memory>
    ensures { IfOk result (λ entries. entries ≡ entries_in kind notes.now) }
{
    let mut entries = Seq::new(alloc);
    'notes: for note in notes {
        if is_end(note) {
            return Ok(entries);
        }
        add(&mut entries, entry_of(kind, note))?;
    }
    Ok(entries)
}

fn notes_behind(notes: &[Note], at: usize) -> &[Note]
    requires { at ≤ length notes.now }
    ensures { result.now ≡ drop at notes.now }
{
    notes.split_at(at).1
}

/// The end that a note shows, with the SDUs in the notes behind it.
fn end_at(alloc: Global, note: &Note, behind: &[Note]) -> Result<Option<End>, Memory>
    ensures { IfOk result (λ end. end ≡ end_at note.now behind.now) }
{
    match note {
        Note::Line {
            line,
            answer: Answer::Flow(flow),
            ..
        } => Ok(Some(End {
            line: *line,
            fac: flow.port.fac.copy(alloc)?,
            node: flow.port.node.copy(alloc)?,
            flow: flow.flow,
            role: flow.role,
            sent: entries_in(alloc, EntryKind::Sent, behind)?,
            got: entries_in(alloc, EntryKind::Got, behind)?,
        })),
        _ => Ok(None),
    }
}

/// Adds an item, where there is one.
fn add<T: Drop>(items: &mut Seq<T>, item: Option<T>) -> Result<(), AllocError>
    ensures { OnOk result (items.new ≡ items.old ++ cons_option item []) }
{
    match item {
        Some(item) => items.push(item),
        None => Ok(()),
    }
}

/// The ends of flows that notes show, in their order, each with the SDUs that stand behind it up to the next end.
pub fn ends_in(alloc: Global, notes: &[Note]) -> Result<Seq<End>, Memory>
    ensures { IfOk result (λ ends. ends ≡ ends_in notes.now) }
{
    let mut ends = Seq::new(alloc);
    let mut at = 0usize;
    'notes: for note in notes {
        at += 1;
        let end = end_at(alloc, note, notes_behind(notes, at))?;
        add(&mut ends, end)?;
    }
    Ok(ends)
}

fn copy_port(alloc: Global, port: &PortNote) -> Result<PortNote, Memory>
    ensures { IfOk result (λ copy. copy ≡ port.now) }
{
    Ok(PortNote {
        fac: port.fac.copy(alloc)?,
        node: port.node.copy(alloc)?,
        n: port.n,
    })
}

fn copy_cause(alloc: Global, cause: &CauseNote) -> Result<CauseNote, Memory>
    ensures { IfOk result (λ copy. copy ≡ cause.now) }
{
    Ok(match cause {
        CauseNote::Expired { left, charge } => CauseNote::Expired {
            left: *left,
            charge: *charge,
        },
        CauseNote::NoRoute { dst } => CauseNote::NoRoute { dst: *dst },
        CauseNote::QueueFull { cap } => CauseNote::QueueFull { cap: *cap },
        CauseNote::NoConnection { cep } => CauseNote::NoConnection { cep: *cep },
        CauseNote::Duplicate { num } => CauseNote::Duplicate { num: *num },
        CauseNote::Behind { highest } => CauseNote::Behind { highest: *highest },
        CauseNote::NoState { drf } => CauseNote::NoState { drf: *drf },
        CauseNote::NoRoom { cap } => CauseNote::NoRoom { cap: *cap },
        CauseNote::StateGone { last_in } => CauseNote::StateGone { last_in: *last_in },
        CauseNote::Broken { missing } => CauseNote::Broken { missing: *missing },
        CauseNote::LinkDown { port } => CauseNote::LinkDown {
            port: copy_port(alloc, port)?,
        },
    })
}

/// The write-off that a note shows.
#[tactic(auto, unfolding(crate::specs::Shown::off_at))]
fn off_at(alloc: Global, note: &Note) -> Result<Option<Off>, Memory>
    ensures { IfOk result (λ off. off ≡ off_at note.now) }
{
    match note {
        Note::Line {
            line,
            answer: Answer::Off { key, cause },
            ..
        } => Ok(Some(Off {
            line: *line,
            key: *key,
            cause: copy_cause(alloc, cause)?,
        })),
        _ => Ok(None),
    }
}

/// The write-offs that notes show, in their order.
pub fn offs_in(alloc: Global, notes: &[Note]) -> Result<Seq<Off>, Memory>
    ensures { IfOk result (λ offs. offs ≡ offs_in notes.now) }
{
    let mut offs = Seq::new(alloc);
    'notes: for note in notes {
        let off = off_at(alloc, note)?;
        add(&mut offs, off)?;
    }
    Ok(offs)
}
