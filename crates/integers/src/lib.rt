// Signed numbers: quotients that round down, and sums that may leave i64.
#![tactic(auto)]

ghost use Rattle.std.specs.Prelude.{◌≡◌, ◌+◌, ◌*◌, ◌^◌, ◌<◌, pos, negsuc, ◌+ℤ◌, ◌-ℤ◌, ◌<ℤ◌, nat_lt};
ghost use Rattle.integers.specs.Integers.{Floor, whole, Proper, checked};

const LOW: i128 = i64::MIN as i128;

const TOP: i128 = i64::MAX as i128;

const SIZE_TOP: u64 = i64::MAX as u64;

// a + more + b - less: what leaves i64 on the way may come back.
fn exact_sum(a: i64, more: u64, b: i64, less: i64) -> i128
    ensures { result ≡ a +ℤ pos more +ℤ b -ℤ less }
{
    i128::from(a) + i128::from(more) + i128::from(b) - i128::from(less)
}

// The same, where an i64 holds it.
pub fn checked_sum(a: i64, more: u64, b: i64, less: i64) -> Option<i64>
    ensures { result ≡ checked (a +ℤ pos more +ℤ b -ℤ less) }
{
    let exact = exact_sum(a, more, b, less);
    if exact < LOW || TOP < exact {
        return None;
    }
    Some(exact as i64)
}

// -1 - x, which turns a number below 0 into one that a u64 holds.
fn complement(x: i64) -> u64
    requires { x <ℤ pos 0 }
    ensures { x ≡ negsuc result }
{
    (-1 - x) as u64
}

// -1 - x, the way back.
fn negative(x: u64) -> i64
    requires { x < 2 ^ 63 }
    ensures { result ≡ negsuc x }
{
    -1 - (x as i64)
}

// A quotient that rounds down, and the rest.
#[derive(Clone, Copy)]
pub struct Parts {
    pub quotient: i64,
    pub rest: u64,
}

pub fn floor_split(n: i64, divisor: u64) -> Parts
    requires { 0 < divisor }
    ensures { Floor divisor n result.quotient result.rest }
{
    if n < 0 {
        let below = complement(n);
        return Parts {
            quotient: negative(below / divisor),
            rest: divisor - 1 - below % divisor,
        };
    }
    let above = n as u64;
    Parts {
        quotient: (above / divisor) as i64,
        rest: above % divisor,
    }
}

// Whether n * divisor + rest is below 2^63; the product itself may leave u64.
fn is_below_top(n: u64, divisor: u64, rest: u64) -> bool
    requires { rest < divisor }
    ensures { result ≡ nat_lt (n * divisor + rest) (2 ^ 63) }
{
    rest <= SIZE_TOP && n <= (SIZE_TOP - rest) / divisor
}

// What floor_split takes apart, put together again.
pub fn floor_join(parts: Parts, divisor: u64) -> Option<i64>
    requires { parts.rest < divisor }
    ensures { result ≡ checked (whole divisor parts) }
{
    let quotient = parts.quotient;
    let rest = parts.rest;
    if quotient < 0 {
        let below = complement(quotient);
        let missing = divisor - 1 - rest;
        if is_below_top(below, divisor, missing) {
            return Some(negative(below * divisor + missing));
        }
        return None;
    }
    let above = quotient as u64;
    if is_below_top(above, divisor, rest) {
        return Some((above * divisor + rest) as i64);
    }
    None
}

// The parts of a sum, from those of its addends: the sum itself need not fit.
pub fn add_parts(a: Parts, b: Parts, divisor: u64) -> Parts
    requires { Proper divisor a × Proper divisor b }
    ensures { Floor divisor (whole divisor a +ℤ whole divisor b) result.quotient result.rest }
{
    let quotient = a.quotient + b.quotient;
    let rest = a.rest + b.rest;
    if rest < divisor {
        return Parts { quotient, rest };
    }
    Parts {
        quotient: quotient + 1,
        rest: rest - divisor,
    }
}

// The parts of a difference.
pub fn sub_parts(a: Parts, b: Parts, divisor: u64) -> Parts
    requires { Proper divisor a × Proper divisor b }
    ensures { Floor divisor (whole divisor a -ℤ whole divisor b) result.quotient result.rest }
{
    let quotient = a.quotient - b.quotient;
    if b.rest <= a.rest {
        return Parts {
            quotient,
            rest: a.rest - b.rest,
        };
    }
    Parts {
        quotient: quotient - 1,
        rest: a.rest + divisor - b.rest,
    }
}
