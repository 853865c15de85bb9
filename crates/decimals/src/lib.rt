// The front of a text, and decimal digits read.
#![tactic(auto)]

ghost use Rattle.std.specs.Prelude.{◌≡◌, true, ◌+◌, ◌≤◌, length, drop, get_or};
ghost use Rattle.decimals.specs.Numbers.{begins_with, is_digit, pair_at, number};

#[tactic(auto, unfolding(crate::specs::Numbers::begins_with))]
pub fn begins_with(s: &[u8], byte: u8) -> bool
    ensures { result ≡ begins_with byte s.now }
{
    s.first() == Some(&byte)
}

// Nothing is left where s has no more than n bytes.
pub fn skip(s: &[u8], n: usize) -> &[u8]
    ensures { result.now ≡ drop n s.now }
{
    &s[n.min(s.len())..]
}

#[tactic(auto, unfolding(crate::specs::Numbers::is_digit))]
pub fn is_digit(byte: u8) -> bool
    ensures { result ≡ is_digit byte }
{
    byte.is_ascii_digit()
}

// Two digits at a place, as a number.
#[tactic(auto, using(crate::proofs::Values::is_digit_lem), unfolding(crate::specs::Numbers::pair_at))]
pub fn pair(s: &[u8], at: usize) -> u8
    requires at_in_bounds { at + 2 ≤ length s.now }
    requires digits { (is_digit (get_or s.now at 0) ≡ true) × (is_digit (get_or s.now (at + 1) 0) ≡ true) }
    ensures { result ≡ pair_at s.now at }
{
    (s[at] - b'0') * 10 + (s[at + 1] - b'0')
}

// Too large and ill formed are the same refusal, so that the first digit too many ends it: n never passes the limit.
#[tactic(auto, using(crate::proofs::Values::is_digit_lem))]
pub fn parse_number(s: &[u8], limit: u64) -> Option<u64>
    ensures { result ≡ number limit s.now }
{
    if s.is_empty() {
        return None;
    }
    let mut n: u64 = 0;
    for &x in s {
        if !is_digit(x) {
            return None;
        }
        let digit = u64::from(x - b'0');
        if limit / 10 < n {
            return None;
        }
        n *= 10;
        if limit - n < digit {
            return None;
        }
        n += digit;
    }
    Some(n)
}
