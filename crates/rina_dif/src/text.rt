//! Numbers in decimal.
ghost use Rattle.std.specs.Prelude.{◌≡◌, ◌++◌, OnOk};
ghost use Rattle.std.specs.Fmt.{decimal};
ghost use Rattle.rina_dif.specs.Objects.{number_text};

use itoa::Buffer;
use std::alloc::{AllocError, Global};

/// Adds a number in decimal.
pub(crate) fn add_decimal(text: &mut Vec<u8>, n: u64) -> Result<(), AllocError>
    ensures { OnOk result (text.new.items ≡ text.old.items ++ decimal n) }
{
    let mut buffer = Buffer::new();
    text.extend_from_slice(buffer.format(n).as_bytes())?;
    Ok(())
}

/// Adds a number, or a dash where there is none.
pub(crate) fn add_number(text: &mut Vec<u8>, n: Option<u64>) -> Result<(), AllocError>
    ensures { OnOk result (text.new.items ≡ text.old.items ++ number_text n) }
{
    match n {
        Some(n) => add_decimal(text, n),
        None => {
            text.push(b'-')?;
            Ok(())
        }
    }
}
