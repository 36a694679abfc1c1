//! Texts of the input as they may stand in XML.
ghost use Rattle.std.specs.Prelude.{◌≡◌};
ghost use Rattle.rina_schedule.specs.Spelling.{Adds};
ghost use Rattle.rina_chart.specs.Escapes.{entity, escaped, is_plain, spelled};

use rina_base::Memory;
use rina_schedule::Text;

/// Whether a byte stands for itself in XML.
#[tactic(auto, unfolding(crate::specs::Escapes::is_plain))]
fn is_plain(byte: u8) -> bool
    ensures { result ≡ is_plain byte }
{
    (32 <= byte && byte <= 126)
        && byte != b'&'
        && byte != b'<'
        && byte != b'>'
        && byte != b'"'
        && byte != b'\''
}

/// The entity of a byte that does not stand for itself.
#[tactic(auto, unfolding(crate::specs::Escapes::entity))]
fn entity(byte: u8) -> &'static [u8]
    ensures { result.now ≡ entity byte }
{
    match byte {
        b'&' => b"&amp;",
        b'<' => b"&lt;",
        b'>' => b"&gt;",
        b'"' => b"&quot;",
        b'\'' => b"&#39;",
        _ => b"&#xFFFD;",
    }
}

/// Appends a byte, or the entity that stands for it.
#[tactic(auto, unfolding(crate::specs::Escapes::spelled))]
fn add_byte(text: &mut Text, byte: u8) -> Result<(), Memory>
    ensures { Adds result text.old text.new (spelled byte) }
{
    if is_plain(byte) {
        text.push(byte)
    } else {
        text.add(entity(byte))
    }
}

/// Appends a text of the input as it may stand in XML, between tags or between quotes: bytes that XML does not allow, and those that are no ASCII,
/// are U+FFFD.
#[tactic(auto, using(std::proofs::lemmas::List::drop_more))]
pub fn add_escaped(text: &mut Text, bytes: &[u8]) -> Result<(), Memory>
    ensures { Adds result text.old text.new (escaped bytes.now) }
{
    'bytes: for byte in bytes {
        add_byte(text, *byte)?;
    }
    Ok(())
}
