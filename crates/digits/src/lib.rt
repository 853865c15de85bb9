// Decimal digits, written as bytes.
#![tactic(auto)]

ghost use Rattle.std.specs.Prelude.{◌≡◌, ◌+◌, ◌*◌, ◌/◌, ◌%◌, ◌^◌, ◌≤◌, ◌<◌, length};
ghost use Rattle.std.proofs.lemmas.List.Edits.{sets};
ghost use Rattle.digits.specs.Digits.{digits, field};

// The least number of ten digits.
const BILLION: u32 = 1_000_000_000;

// A number without its last digits, and those as a number.
#[derive(Clone, Copy)]
pub struct Split {
    pub rest: u32,
    pub last: u32,
}

// The product and the shift are n / DIVISOR, as in the Rust, for a FACTOR that is 2^32 / DIVISOR, rounded up by so little that it is not seen below 2^30.
fn split_last<const DIVISOR: u32, const FACTOR: u64>(n: u32) -> Split
    requires small { n < 2 ^ 30 }
    requires rounded_up { (2 ^ 32 ≤ FACTOR * DIVISOR) × (FACTOR * DIVISOR ≤ 2 ^ 32 + 4) }
    ensures { (result.rest ≡ n / DIVISOR) × (result.last ≡ n % DIVISOR) }
{
    let rest = (n as u64 * FACTOR >> 32) as u32;
    Split {
        rest,
        last: n - rest * DIVISOR,
    }
}

pub fn split_last_digit(n: u32) -> Split
    requires { n < 2 ^ 30 }
    ensures { (result.rest ≡ n / 10) × (result.last ≡ n % 10) }
{
    split_last::<10, 429_496_730>(n)
}

// Nine digits come off a larger number: 2_305_843_009 is 2^61 / 10^9, rounded down, so that the product may be one too small.
fn split_last_nine(n: u64) -> Split
    requires { n < 10 ^ 18 }
    ensures { (result.rest ≡ n / 10 ^ 9) × (result.last ≡ n % 10 ^ 9) }
{
    let rest = ((n >> 29) * 2_305_843_009 >> 32) as u32;
    let last = (n - rest as u64 * BILLION as u64) as u32;
    if last < BILLION {
        Split { rest, last }
    } else {
        Split {
            rest: rest + 1,
            last: last - BILLION,
        }
    }
}

// Two digits as one number of 16 bits, so that a single store writes them: the first digit in the low byte, and 48, the byte of `0`, in both.
fn put_pair(s: &mut [u8], at: usize, n: u32)
    requires { (at + 2 ≤ length s.old) × (n < 100) }
    ensures { s.new ≡ sets s.old at (digits 2 n) }
{
    let tens = split_last_digit(n).rest;
    let pair = 0x3030 + n * 256 - tens * 2559;
    s[at..at + 2].copy_from_slice(&(pair as u16).to_le_bytes());
}

// The last `width` digits of n, from at on; the last two are written first.
fn put_digits(s: &mut [u8], at: usize, width: usize, n: u32)
    requires { (at + width ≤ length s.old) × (n < 2 ^ 30) }
    ensures { s.new ≡ sets s.old at (digits width n) }
{
    let odd = width % 2;
    let mut m = n;
    for pair in (0..width / 2).rev() {
        let split = split_last::<100, 42_949_673>(m);
        put_pair(s, at + odd + 2 * pair, split.last);
        m = split.rest;
    }
    if odd == 1 {
        s[at] = b'0' + split_last_digit(m).last as u8;
    }
}

// The same of a larger number: its last nine digits, and those before them.
pub fn put_number(s: &mut [u8], at: usize, width: usize, n: u64)
    requires { (at + width ≤ length s.old) × (n < 10 ^ 18) }
    ensures { s.new ≡ sets s.old at (digits width n) }
{
    if n < BILLION as u64 {
        // The compiler unrolls a width that it knows: those of most fractions and years.
        match width {
            9 => put_digits(s, at, 9, n as u32),
            4 => put_digits(s, at, 4, n as u32),
            _ => put_digits(s, at, width, n as u32),
        }
        return;
    }
    let split = split_last_nine(n);
    if width <= 9 {
        put_digits(s, at, width, split.last);
    } else {
        let lead = width - 9;
        put_digits(s, at, lead, split.rest);
        put_digits(s, at + lead, 9, split.last);
    }
}

// A separator and two digits, from at on.
pub fn put_field(s: &mut [u8], at: usize, separator: u8, n: u8)
    requires { at + 3 ≤ length s.old }
    ensures { s.new ≡ sets s.old at (field separator n) }
{
    s[at] = separator;
    // Below 100, as every field of a moment is, the number is its own pair.
    if n < 100 {
        put_pair(s, at + 1, n as u32);
    } else {
        put_digits(s, at + 1, 2, n as u32);
    }
}
