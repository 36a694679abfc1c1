//! Numbers of four bytes in the values of messages.
ghost use Rattle.std.specs.Prelude.{◌≡◌, ◌++◌, OnOk, option_map};
ghost use Rattle.rina_cdap.specs.Messages.{be4};
ghost use Rattle.rina_cdap.specs.Numbers.{number_at};

use std::alloc::AllocError;

/// The number in the first four bytes, big-endian, and the bytes behind it. None exactly under four bytes.
#[tactic(auto, unfolding(crate::specs::Numbers::number_at))]
pub fn take_number(bytes: &[u8]) -> Option<(u32, &[u8])>
    ensures { option_map (λ x. (x.0, x.1.now)) result ≡ number_at bytes.now }
{
    match bytes {
        [a, b, c, d, rest @ ..] => Some((u32::from_be_bytes([*a, *b, *c, *d]), rest)),
        _ => None,
    }
}

/// Adds a number at the end, in four bytes, big-endian.
#[tactic(auto, unfolding(crate::specs::Messages::be4))]
pub fn put_number(out: &mut Vec<u8>, number: u32) -> Result<(), AllocError>
    ensures { OnOk result (out.new.items ≡ out.old.items ++ be4 number) }
{
    out.extend_from_slice(&number.to_be_bytes())
}
