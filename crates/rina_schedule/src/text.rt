//! A text that is built field by field.
ghost use Rattle.std.specs.Prelude.{◌≡◌, ◌<◌, ◌∷◌, []};
ghost use Rattle.std.specs.Fmt.{decimal};
ghost use Rattle.std.specs.List.{flat_map};
ghost use Rattle.rina_schedule.specs.Spelling.{hex_glyph, hex_pair, spelling, Adds};

use crate::bytes::is_plain_text;
use itoa::Buffer;
use rina_base::Memory;
use std::alloc::Global;
use std::marker::Model;

/// A text to which bytes are appended. A contract sees its bytes.
#[derive(Drop)]
pub struct Text {
    bytes: Vec<u8>,
}

impl Model for Text {
    ghost use Rattle.std.specs.Prelude.{List, ℕ};

    ghost Value = { List ℕ };

    ghost view = { λ t. t.bytes.items };
}

#[tactic(auto, unfolding(crate::specs::Spelling::hex_glyph))]
fn glyph(digit: u8) -> u8
    requires { digit < 16 }
    ensures { result ≡ hex_glyph digit }
{
    match digit {
        0..=9 => b'0' + digit,
        _ => b'a' + (digit - 10),
    }
}

impl Text {
    /// Makes an empty text; does not allocate.
    pub fn new(alloc: Global) -> Text
        ensures { result ≡ [] }
    {
        Text {
            bytes: Vec::new(alloc),
        }
    }

    /// Gives its bytes; does not allocate.
    pub fn into_vec(self) -> Vec<u8>
        ensures { result.items ≡ self }
    {
        self.bytes
    }

    /// Appends one byte.
    pub fn push(&mut self, byte: u8) -> Result<(), Memory>
        ensures { Adds result self.old self.new (byte ∷ []) }
    {
        match self.bytes.push(byte) {
            Ok(()) => Ok(()),
            Err(_) => Err(Memory),
        }
    }

    /// Appends bytes as they are.
    pub fn add(&mut self, bytes: &[u8]) -> Result<(), Memory>
        ensures { Adds result self.old self.new bytes.now }
    {
        self.bytes.extend_from_slice(bytes)?;
        Ok(())
    }

    /// Appends a number in decimal.
    pub fn number(&mut self, n: u64) -> Result<(), Memory>
        ensures { Adds result self.old self.new (decimal n) }
    {
        let mut buffer = Buffer::new();
        self.add(buffer.format(n).as_bytes())
    }

    /// Appends a byte as two lower-case hexadecimal digits.
    #[tactic(auto, unfolding(crate::specs::Spelling::hex_pair))]
    fn pair(&mut self, byte: u8) -> Result<(), Memory>
        ensures { Adds result self.old self.new (hex_pair byte) }
    {
        self.push(glyph(byte / 16))?;
        self.push(glyph(byte % 16))
    }

    /// Makes room for so many more bytes.
    fn reserve(&mut self, count: usize) -> Result<(), Memory>
        ensures { self.new ≡ self.old }
    {
        self.bytes.reserve(count)?;
        Ok(())
    }

    /// Appends bytes in lower-case hexadecimal.
    #[tactic(auto, using(std::proofs::lemmas::List::drop_more))]
    fn pairs(&mut self, bytes: &[u8]) -> Result<(), Memory>
        ensures { Adds result self.old self.new (flat_map hex_pair bytes.now) }
    {
        self.reserve(bytes.len().saturating_mul(2))?;
        'bytes: for byte in bytes {
            self.pair(*byte)?;
        }
        Ok(())
    }

    /// Appends the spelling of bytes: `'` and the bytes, where there is at least one and all are from
    /// `!` to `~`; otherwise `x` and the bytes in lower-case hexadecimal.
    #[tactic(auto, unfolding(crate::specs::Spelling::spelling))]
    pub fn spell(&mut self, bytes: &[u8]) -> Result<(), Memory>
        ensures { Adds result self.old self.new (spelling bytes.now) }
    {
        if is_plain_text(bytes) {
            self.push(b'\'')?;
            self.add(bytes)
        } else {
            self.push(b'x')?;
            self.pairs(bytes)
        }
    }

    /// Appends a space and a field.
    pub fn field(&mut self, bytes: &[u8]) -> Result<(), Memory>
        ensures { Adds result self.old self.new (32 ∷ bytes.now) }
    {
        self.push(b' ')?;
        self.add(bytes)
    }

    /// Appends a space and a number in decimal.
    pub fn number_field(&mut self, n: u64) -> Result<(), Memory>
        ensures { Adds result self.old self.new (32 ∷ decimal n) }
    {
        self.push(b' ')?;
        self.number(n)
    }

    /// Appends a space and the spelling of bytes.
    pub fn bytes_field(&mut self, bytes: &[u8]) -> Result<(), Memory>
        ensures { Adds result self.old self.new (32 ∷ spelling bytes.now) }
    {
        self.push(b' ')?;
        self.spell(bytes)
    }
}
