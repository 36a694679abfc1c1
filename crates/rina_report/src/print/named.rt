//! Printing a word and what it names.
ghost use Rattle.std.specs.Prelude.{◌∷◌, []};
ghost use Rattle.std.specs.Fmt.{decimal};
ghost use Rattle.rina_schedule.specs.Spelling.{Adds, spaced, spelling};
ghost use Rattle.rina_report.specs.Values.{num_text, port_text, key_fields};

use crate::print::value;
use crate::state::PortNote;
use rina_base::{Key, Memory, Num};
use rina_schedule::Text;

/// Appends a word and a number as two fields.
pub(crate) fn number(text: &mut Text, word: &[u8], n: u32) -> Result<(), Memory>
    ensures { Adds result text.old text.new (spaced (word.now ∷ decimal n ∷ [])) }
{
    text.field(word)?;
    text.number_field(u64::from(n))
}

/// Appends a word and two numbers as three fields.
pub(crate) fn two(text: &mut Text, word: &[u8], a: u32, b: u32) -> Result<(), Memory>
    ensures { Adds result text.old text.new (spaced (word.now ∷ decimal a ∷ decimal b ∷ [])) }
{
    text.field(word)?;
    value::two(text, u64::from(a), u64::from(b))
}

/// Appends a word and CEP.SEQ as two fields.
pub(crate) fn num(text: &mut Text, word: &[u8], num: Num) -> Result<(), Memory>
    ensures { Adds result text.old text.new (spaced (word.now ∷ num_text num ∷ [])) }
{
    text.field(word)?;
    value::num(text, num)
}

/// Appends a word and FAC/NODE/N as two fields.
pub(crate) fn port(text: &mut Text, word: &[u8], port: &PortNote) -> Result<(), Memory>
    ensures { Adds result text.old text.new (spaced (word.now ∷ port_text port.now ∷ [])) }
{
    text.field(word)?;
    value::port(text, port)
}

/// Appends a word, the kind of a PDU and SRC.SCEP.SEQ as three fields.
pub(crate) fn key(text: &mut Text, word: &[u8], key: Key) -> Result<(), Memory>
    ensures { Adds result text.old text.new (spaced (word.now ∷ key_fields key)) }
{
    text.field(word)?;
    value::key(text, key)
}

/// Appends a word and bytes as two fields.
pub(crate) fn bytes(text: &mut Text, word: &[u8], bytes: &[u8]) -> Result<(), Memory>
    ensures { Adds result text.old text.new (spaced (word.now ∷ spelling bytes.now ∷ [])) }
{
    text.field(word)?;
    text.bytes_field(bytes)
}
