// The two parts of a text that vary in length, the year and the fraction: worked out before they are written.
#![tactic(auto)]

mod part;

ghost use Rattle.std.specs.Prelude.{◌≡◌, ◌+◌, ◌^◌, ◌≤◌, ◌<◌, nat_abs, length};
ghost use Rattle.std.proofs.lemmas.List.Edits.{sets};
ghost use Rattle.digits.specs.Digits.{digits, width};
ghost use Rattle.printed_parts.specs.Text.{year_text, pointed, fraction_text};
ghost use Rattle.printed_parts.specs.Parts.{part_text};

use digits::{put_number, split_last_digit};
pub use part::Part;

pub fn part_length(p: Part) -> usize
    ensures { result ≡ length (part_text p) }
{
    p.mark.is_some() as usize + p.width
}

// The part from at on, and the place behind it.
pub fn put_part(s: &mut [u8], at: usize, p: Part) -> usize
    requires { at + length (part_text p) ≤ length s.old }
    ensures behind { result ≡ at + length (part_text p) }
    ensures written { s.new ≡ sets s.old at (part_text p) }
{
    match p.mark {
        Some(mark) => {
            s[at] = mark;
            put_number(s, at + 1, p.width, p.value);
            at + 1 + p.width
        }
        None => {
            put_number(s, at, p.width, p.value);
            at + p.width
        }
    }
}

// How many digits a year's size takes.
fn width_of(size: u64) -> usize
    ensures { result ≡ width size }
{
    if size < 10_000 {
        4
    } else {
        size.ilog10() as usize + 1
    }
}

pub fn year_part(year: i64) -> Part
    requires { nat_abs year < 10 ^ 12 }
    ensures { part_text result ≡ year_text year }
{
    let size = year.unsigned_abs();
    Part {
        mark: (year < 0).then_some(b'-'),
        width: width_of(size),
        value: size,
    }
}

// The first digits of a fraction, `width` of them, as one number.
fn behind_point(width: usize, value: u32) -> Part
    requires { width ≤ 9 }
    ensures { part_text result ≡ pointed (digits width value) }
{
    Part {
        mark: (0 < width).then_some(b'.'),
        width,
        value: value as u64,
    }
}

// All nine digits but the zeros at their end.
fn trimmed(nanos: u32) -> Part
    requires { nanos < 2 ^ 30 }
    ensures { part_text result ≡ fraction_text None nanos }
{
    // Whole milliseconds, and whole seconds, end in six zeros. 4295 is 2^32 / 1_000_000, rounded up: the product finds the whole ones, and the test tells them.
    let millis = (nanos as u64 * 4295 >> 32) as u32;
    let (width, mut value) = if millis * 1_000_000 == nanos {
        (3, millis)
    } else {
        (9, nanos)
    };
    for before in (0..width).rev() {
        let split = split_last_digit(value);
        // Of the digit a byte is tested, which is quicker.
        if split.last as u8 != 0 {
            return behind_point(before + 1, value);
        }
        value = split.rest;
    }
    behind_point(0, value)
}

// The first `precision` of the nine digits.
fn cut(nanos: u32, precision: usize) -> Part
    requires { nanos < 2 ^ 30 }
    ensures { part_text result ≡ fraction_text (Some precision) nanos }
{
    let width = precision.min(9);
    let mut value = nanos;
    for _ in width..9 {
        value = split_last_digit(value).rest;
    }
    behind_point(width, value)
}

// The fraction with `precision` digits, but never more than nine; with none given, as many as it takes.
pub fn fraction_part(nanos: u32, precision: Option<usize>) -> Part
    requires { nanos < 2 ^ 30 }
    ensures { part_text result ≡ fraction_text precision nanos }
{
    match precision {
        None => trimmed(nanos),
        Some(n) => cut(nanos, n),
    }
}
