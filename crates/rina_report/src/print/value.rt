//! Printing values of more than one part.
ghost use Rattle.std.specs.Prelude.{◌≡◌, ◌∷◌, []};
ghost use Rattle.std.specs.Fmt.{decimal};
ghost use Rattle.rina_schedule.specs.Spelling.{Adds, spaced};
ghost use Rattle.rina_report.specs.Values.{num_text, flow_text, port_text, key_text, key_fields, kind_word, truth_text};

use crate::state::PortNote;
use rina_base::{FlowName, Key, Memory, Num, PduKind};
use rina_schedule::Text;

/// Appends a field CEP.SEQ.
#[tactic(auto, unfolding(crate::specs::Values::num_text))]
pub(crate) fn num(text: &mut Text, num: Num) -> Result<(), Memory>
    ensures { Adds result text.old text.new (32 ∷ num_text num) }
{
    text.number_field(u64::from(num.cep))?;
    text.push(b'.')?;
    text.number(num.seq)
}

/// Appends a field SRC.TICK.COUNT.
#[tactic(auto, unfolding(crate::specs::Values::flow_text))]
pub(crate) fn flow(text: &mut Text, flow: FlowName) -> Result<(), Memory>
    ensures { Adds result text.old text.new (32 ∷ flow_text flow) }
{
    text.number_field(u64::from(flow.src))?;
    text.push(b'.')?;
    text.number(u64::from(flow.tick))?;
    text.push(b'.')?;
    text.number(u64::from(flow.count))
}

/// Appends a field FAC/NODE/N.
#[tactic(auto, unfolding(crate::specs::Values::port_text))]
pub(crate) fn port(text: &mut Text, port: &PortNote) -> Result<(), Memory>
    ensures { Adds result text.old text.new (32 ∷ port_text port.now) }
{
    text.field(port.fac.as_bytes())?;
    text.push(b'/')?;
    text.add(port.node.as_bytes())?;
    text.push(b'/')?;
    text.number(u64::from(port.n))
}

#[tactic(auto, unfolding(crate::specs::Values::kind_word))]
fn kind(kind: PduKind) -> &'static [u8]
    ensures { result.now ≡ kind_word kind }
{
    match kind {
        PduKind::Piece => b"data",
        PduKind::Ack => b"ack",
    }
}

/// Appends a field SRC.SCEP.SEQ.
#[tactic(auto, unfolding(crate::specs::Values::key_text))]
fn key_numbers(text: &mut Text, key: Key) -> Result<(), Memory>
    ensures { Adds result text.old text.new (32 ∷ key_text key) }
{
    text.number_field(u64::from(key.src))?;
    text.push(b'.')?;
    text.number(u64::from(key.scep))?;
    text.push(b'.')?;
    text.number(u64::from(key.seq))
}

/// Appends the kind of a PDU and SRC.SCEP.SEQ as two fields.
pub(crate) fn key(text: &mut Text, key: Key) -> Result<(), Memory>
    ensures { Adds result text.old text.new (spaced (key_fields key)) }
{
    text.field(kind(key.kind))?;
    key_numbers(text, key)
}

/// Appends a field 0 or 1.
#[tactic(auto, unfolding(crate::specs::Values::truth_text))]
pub(crate) fn truth(text: &mut Text, truth: bool) -> Result<(), Memory>
    ensures { Adds result text.old text.new (32 ∷ truth_text truth) }
{
    text.field(if truth { b"1" } else { b"0" })
}

/// Appends two numbers as two fields.
pub(crate) fn two(text: &mut Text, a: u64, b: u64) -> Result<(), Memory>
    ensures { Adds result text.old text.new (spaced (decimal a ∷ decimal b ∷ [])) }
{
    text.number_field(a)?;
    text.number_field(b)
}
