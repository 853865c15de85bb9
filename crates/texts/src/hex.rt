// HEX: bytes as pairs of lower-case hexadecimal digits, `-` for none.
ghost use Rattle.std.specs.Prelude.{◌≡◌, ◌+◌, ◌*◌, ◌≤◌, ◌<◌, length};
ghost use Rattle.texts.specs.Hex.{digit_of, digit_value, all_digits, is_hex, Unhexed};

// The digit of a value below 16.
pub(crate) fn digit(value: u8) -> u8
    requires { value < 16 }
    ensures { result ≡ digit_of value }
{
    let digits = b"0123456789abcdef";
    digits[value as usize]
}

// The value of a digit, 0 of any other byte.
#[tactic(auto, unfolding(crate::specs::Hex::digit_value))]
fn digit_value(x: u8) -> u8
    ensures value { result ≡ digit_value x }
    ensures small { result < 16 }
{
    match x {
        b'0'..=b'9' => x - b'0',
        b'a'..=b'f' => x - b'a' + 10,
        _ => 0,
    }
}

// A byte is a digit if it is that of its value.
fn all_digits(s: &[u8]) -> bool
    ensures { result ≡ all_digits s.now }
{
    s.iter().all(|x| digit(digit_value(*x)) == *x)
}

#[tactic(auto, unfolding(crate::specs::Hex::is_hex))]
pub fn is_hex(s: &[u8]) -> bool
    ensures { result ≡ is_hex s.now }
{
    if s.len() % 2 == 0 {
        !s.is_empty() && all_digits(s)
    } else {
        s == b"-".as_slice()
    }
}

// The bytes that hex stands for, at the front of bytes, and how many they are.
pub fn unhex(hex: &[u8], bytes: &mut [u8]) -> usize
    requires { length hex.now ≤ 2 * length bytes.old }
    ensures { Unhexed hex.now bytes.new result }
{
    for n in 0..hex.len() / 2 {
        bytes[n] = digit_value(hex[2 * n]) * 16 + digit_value(hex[2 * n + 1]);
    }
    hex.len() / 2
}
