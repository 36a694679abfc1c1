//! What became of an SDU, in words.
ghost use Rattle.std.specs.Prelude.{◌≡◌, ◌++◌, codes, option_and_then, option_map, slice_get};
ghost use Rattle.std.specs.Fmt.{decimal};
ghost use Rattle.rina_schedule.specs.Spelling.{Adds};
ghost use Rattle.rina_report.specs.Values.{flow_text, num_text, port_text, truth_text};
ghost use Rattle.rina_view.specs.Texts.{cause_words, end_text, fate_words, more_words, off_words, reason_words};

use crate::row::Row;
use crate::shown::{End, Off};
use crate::sum::delay;
use rina_base::{FlowName, Memory, Num};
use rina_report::{CauseNote, PortNote};
use rina_schedule::Text;

/// Appends CEP.SEQ.
#[tactic(auto, unfolding(rina_report::specs::Values::num_text))]
pub fn num(text: &mut Text, num: Num) -> Result<(), Memory>
    ensures { Adds result text.old text.new (num_text num) }
{
    text.number(u64::from(num.cep))?;
    text.push(b'.')?;
    text.number(num.seq)
}

/// Appends SRC.TICK.COUNT.
#[tactic(auto, unfolding(rina_report::specs::Values::flow_text))]
pub fn flow(text: &mut Text, flow: FlowName) -> Result<(), Memory>
    ensures { Adds result text.old text.new (flow_text flow) }
{
    text.number(u64::from(flow.src))?;
    text.push(b'.')?;
    text.number(u64::from(flow.tick))?;
    text.push(b'.')?;
    text.number(u64::from(flow.count))
}

/// Appends FAC/NODE/N.
#[tactic(auto, unfolding(rina_report::specs::Values::port_text))]
fn port(text: &mut Text, port: &PortNote) -> Result<(), Memory>
    ensures { Adds result text.old text.new (port_text port.now) }
{
    text.add(port.fac.as_bytes())?;
    text.push(b'/')?;
    text.add(port.node.as_bytes())?;
    text.push(b'/')?;
    text.number(u64::from(port.n))
}

/// Appends 0 or 1.
#[tactic(auto, unfolding(rina_report::specs::Values::truth_text))]
fn truth(text: &mut Text, truth: bool) -> Result<(), Memory>
    ensures { Adds result text.old text.new (truth_text truth) }
{
    text.add(if truth { b"1" } else { b"0" })
}

/// Appends words and a number behind them.
fn counted(text: &mut Text, words: &[u8], n: u32) -> Result<(), Memory>
    ensures { Adds result text.old text.new (words.now ++ decimal n) }
{
    text.add(words)?;
    text.number(u64::from(n))
}

/// Appends the lifetime that was left, and the charge.
fn expired(text: &mut Text, left: u32, charge: u32) -> Result<(), Memory>
    ensures { Adds result text.old text.new (decimal left ++ codes " ticks left, " ++ decimal charge ++ codes " charged") }
{
    text.number(u64::from(left))?;
    counted(text, b" ticks left, ", charge)?;
    text.add(b" charged")
}

/// Appends words and a flag behind them.
fn flagged(text: &mut Text, words: &[u8], flag: bool) -> Result<(), Memory>
    ensures { Adds result text.old text.new (words.now ++ truth_text flag) }
{
    text.add(words)?;
    truth(text, flag)
}

/// Appends why a PDU was written off.
#[tactic(auto, unfolding(crate::specs::Texts::cause_words))]
fn cause(text: &mut Text, cause: &CauseNote) -> Result<(), Memory>
    ensures { Adds result text.old text.new (cause_words cause.now) }
{
    match cause {
        CauseNote::Expired { left, charge } => expired(text, *left, *charge),
        CauseNote::NoRoute { dst } => counted(text, b"no way to address ", *dst),
        CauseNote::QueueFull { cap } => counted(text, b"the queue held ", *cap),
        CauseNote::NoConnection { cep } => counted(text, b"no connection ", *cep),
        CauseNote::Duplicate { num: before } => {
            num(text, *before)?;
            text.add(b" came before")
        }
        CauseNote::Behind { highest } => counted(text, b"too late, behind ", *highest),
        CauseNote::NoState { drf } => flagged(text, b"no state, run flag ", *drf),
        CauseNote::NoRoom { cap } => {
            text.number(u64::from(*cap))?;
            text.add(b" wait unread")
        }
        CauseNote::StateGone { last_in } => counted(text, b"state ended, renewed at ", *last_in),
        CauseNote::Broken { missing } => counted(text, b"no number ", *missing),
        CauseNote::LinkDown { port: below } => {
            text.add(b"link gone, port ")?;
            port(text, below)
        }
    }
}

/// Appends how many more write-offs there are.
fn more(text: &mut Text, offs: usize) -> Result<(), Memory>
    ensures { Adds result text.old text.new (more_words offs) }
{
    if 1 < offs {
        text.add(b", and ")?;
        text.number(offs as u64 - 1)?;
        text.add(b" more")
    } else {
        Ok(())
    }
}

/// Appends why an SDU was written off, and how many more write-offs there are.
#[tactic(auto, unfolding(crate::specs::Texts::reason_words))]
fn reason(text: &mut Text, offs: usize, off: &Off) -> Result<(), Memory>
    ensures { Adds result text.old text.new (reason_words offs off.now) }
{
    text.add(b": ")?;
    cause(text, &off.cause)?;
    more(text, offs)
}

/// Appends the first write-off of an SDU.
fn written_off(text: &mut Text, offs: usize, off: &Off) -> Result<(), Memory>
    ensures { Adds result text.old text.new (off_words offs off.now) }
{
    counted(text, b"written off, line ", off.line)?;
    reason(text, offs, off)
}

fn off_at(offs: &[Off], place: Option<usize>) -> Option<&Off>
    ensures { option_map (λ o. o.now) result ≡ option_and_then (λ i. slice_get offs.now i) place }
{
    offs.get(place?)
}

/// Appends what became of an SDU.
pub(crate) fn fate(text: &mut Text, offs: &[Off], row: &Row) -> Result<(), Memory>
    ensures { Adds result text.old text.new (fate_words offs.now row.now) }
{
    match row.got {
        Some(tick) => {
            counted(text, b"got ", tick)?;
            counted(text, b" after ", delay(row))
        }
        None => match off_at(offs, row.off) {
            Some(off) => written_off(text, row.offs, off),
            None => text.add(b"on its way or lost"),
        },
    }
}

/// Appends FAC FLOW NODE.
pub(crate) fn end(text: &mut Text, end: &End) -> Result<(), Memory>
    ensures { Adds result text.old text.new (end_text end.now) }
{
    text.add(end.fac.as_bytes())?;
    text.push(b' ')?;
    flow(text, end.flow)?;
    text.field(end.node.as_bytes())
}
