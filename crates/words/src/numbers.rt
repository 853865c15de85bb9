// Decimal numbers: digits alone, no needless zero, `-` where the type is signed, within the type.
ghost use Rattle.std.specs.Prelude.{◌≡◌, ◌^◌, ◌<◌};
ghost use Rattle.words.specs.Numbers.{unsigned, signed};

use decimals::{begins_with, parse_number, skip};

// The top of i64, for callers of this crate too.
pub const TOP: u64 = i64::MAX as u64;

// A number of an unsigned type whose top is the limit.
#[tactic(auto, unfolding(crate::specs::Numbers::unsigned))]
pub(crate) fn parse_unsigned(s: &[u8], limit: u64) -> Option<u64>
    ensures { result ≡ unsigned limit s.now }
{
    if begins_with(s, b'0') && 1 < s.len() {
        return None;
    }
    parse_number(s, limit)
}

// A number of a signed type from -top - 1 to top.
pub(crate) fn parse_signed(s: &[u8], top: u64) -> Option<i64>
    requires { top < 2 ^ 63 }
    ensures { result ≡ signed top s.now }
{
    if begins_with(s, b'-') {
        let size = parse_unsigned(skip(s, 1), top + 1)?;
        if size == 0 {
            return None;
        }
        return Some(-1 - (size - 1) as i64);
    }
    let size = parse_unsigned(s, top)?;
    Some(size as i64)
}
