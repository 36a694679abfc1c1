//! Numbers in decimal.
ghost use Rattle.std.specs.Prelude.{◌≡◌, ◌≤◌, IfSome};
ghost use Rattle.rina_base.specs.Decimals.{decimal_of, number_of};

/// The number that a text writes in decimal, without a sign; zeros may stand before it. None exactly where the
/// text is empty, has a byte that is no digit, or writes a number above `max`. Takes no memory.
#[tactic(auto, unfolding(crate::specs::Decimals::decimal_of, crate::specs::Decimals::decimal_from, crate::specs::Decimals::is_digit))]
pub fn read_decimal(max: u64, text: &[u8]) -> Option<u64>
    ensures value { result ≡ decimal_of max text.now }
    ensures small { IfSome result (λ x. x ≤ max) }
{
    if text.is_empty() {
        return None;
    }
    let mut n = 0u64;
    'digits: for b in text {
        if !b.is_ascii_digit() {
            return None;
        }
        let more = u128::from(n) * 10 + u128::from(*b - b'0');
        if more > u128::from(max) {
            return None;
        }
        n = more as u64;
    }
    Some(n)
}

/// The number of 32 bits that a text writes in decimal, as `read_decimal` reads it. Takes no memory.
pub fn read_number(text: &[u8]) -> Option<u32>
    ensures { result ≡ number_of text.now }
{
    let n = read_decimal(u64::from(u32::MAX), text)?;
    Some(n as u32)
}
