// What an entry answered, in one form for all, and the line that says it.
#![tactic(auto)]

mod said; // what an entry answered

ghost use Rattle.std.specs.Prelude.{◌≡◌, ◌+◌, ◌≤◌, length};
ghost use Rattle.errors.specs.Told.{told};
ghost use Rattle.texts.specs.Texts.{natural};
ghost use Rattle.texts.specs.Wrote.{Wrote};
ghost use Rattle.answers.specs.Answers.{name_of, mark, line, order_text};
ghost use Rattle.answers.specs.Said.{said_text};

use errors::Refusal;
pub use said::{Said, answered};
use std::cmp::Ordering;
use texts::Writer;

// The names of the refusals, by their numbers.
const NAMES: [&[u8]; 14] = [
    b"InvalidMonth",
    b"InvalidDayOfMonth",
    b"InvalidHour",
    b"InvalidMinute",
    b"InvalidSecond",
    b"InvalidNanosecond",
    b"OutOfRange",
    b"MissingField",
    b"InvalidFieldWidth",
    b"InvalidFieldValue",
    b"NotRepresentable",
    b"BadNanos",
    b"StartOutside",
    b"NoRoom",
];

#[tactic(auto, using(crate::proofs::Refusals::name_short))]
fn name(number: u8) -> &'static [u8]
    ensures value { result.now ≡ name_of number }
    ensures within { length result.now ≤ 17 }
{
    NAMES.get(usize::from(number)).copied().unwrap_or(b"")
}

fn mark(in_range_error: bool) -> &'static [u8]
    ensures value { result.now ≡ mark in_range_error }
    ensures within { length result.now ≤ 11 }
{
    if in_range_error { b"RangeError " } else { b"" }
}

fn order_word(order: Ordering) -> &'static [u8]
    ensures value { result.now ≡ order_text order }
    ensures within { length result.now ≤ 7 }
{
    match order {
        Ordering::Less => b"earlier",
        Ordering::Equal => b"same",
        Ordering::Greater => b"later",
    }
}

pub fn put_refusal(out: &mut Writer<'_>, refusal: Refusal)
    requires { out.old.at + 80 ≤ length out.old.line.now }
    ensures wrote { Wrote out.old (line natural (told refusal)) out.new }
    ensures within { out.new.at ≤ out.old.at + 80 }
{
    out.put(b"refused ");
    out.put_natural(u64::from(refusal.number()));
    out.put(b" ");
    out.put(mark(refusal.in_range_error()));
    out.put(name(refusal.number()));
    if let Some(value) = refusal.value() {
        out.put_behind_blank(u64::from(value));
    }
}

pub fn put_said(out: &mut Writer<'_>, said: Result<Said, Refusal>)
    requires { out.old.at + 80 ≤ length out.old.line.now }
    ensures wrote { Wrote out.old (said_text said) out.new }
    ensures within { out.new.at ≤ out.old.at + 80 }
{
    let said = match said {
        Ok(said) => said,
        Err(refusal) => return put_refusal(out, refusal),
    };
    out.put(b"ok ");
    match said {
        Said::Time(secs, nanos) => {
            out.put_integer(secs);
            out.put_behind_blank(u64::from(nanos));
        }
        Said::Unix(secs) => out.put_integer(secs),
        Said::Lasts(secs, nanos) => {
            out.put_natural(secs);
            out.put_behind_blank(u64::from(nanos));
        }
        Said::Number(n) => out.put_natural(n),
        Said::Order(order) => out.put(order_word(order)),
    }
}
