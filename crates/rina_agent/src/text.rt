//! Numbers in decimal, in the keys and the values of items.
ghost use Rattle.std.specs.Prelude.{◌≡◌, [], ◌++◌, ◌∷◌, IfOk, OnOk};
ghost use Rattle.std.specs.Fmt.{decimal};

use rina_base::Bytes;
use std::alloc::{AllocError, Global};

/// Adds a byte.
fn push(text: &mut Vec<u8>, b: u8) -> Result<(), AllocError>
    ensures { OnOk result (text.new.items ≡ text.old.items ++ b ∷ []) }
{
    text.push(b)?;
    Ok(())
}

/// Adds a number in decimal.
#[tactic(auto, using(std::proofs::lemmas::Fmt::decimal_digit, crate::proofs::Texts::last_digit))]
pub(crate) fn add_decimal(text: &mut Vec<u8>, n: u64) -> Result<(), AllocError>
    ensures { OnOk result (text.new.items ≡ text.old.items ++ decimal n) }
{
    if n < 10 {
        return push(text, b'0' + n as u8);
    }
    add_decimal(text, n / 10)?;
    push(text, b'0' + (n % 10) as u8)
}

/// A number in decimal behind a text.
pub fn numbered(alloc: Global, text: &[u8], n: u64) -> Result<Bytes, AllocError>
    ensures { IfOk result (λ b. b ≡ text.now ++ decimal n) }
{
    let mut name = Vec::from_slice(alloc, text)?;
    add_decimal(&mut name, n)?;
    Ok(Bytes::from_vec(name))
}
