// Writing a stamp into a lent line.
#![tactic(auto)]

ghost use Rattle.std.specs.Prelude.{◌≡◌, ◌++◌, ◌+◌, ◌≤◌, length};
ghost use Rattle.std.proofs.lemmas.List.Edits.{sets};
ghost use Rattle.printed_parts.specs.Parts.{part_text};
ghost use Rattle.printer.specs.Text.{fields_text, text, Ranged};
ghost use Rattle.printer.specs.Lent.{said, answer, line_after};
ghost use Rattle.printer.specs.Display.{displayed};

use counts::{Epoch, TaiTime};
use digits::put_field;
use errors::PrintError;
use moments::{Moment, secs_to_date_time};
use printed_parts::{Part, fraction_part, part_length, put_part, year_part};

// What is printed: a moment, and the nanoseconds since its second began.
#[derive(Clone, Copy)]
pub struct Instant {
    pub moment: Moment,
    pub nanos: u32,
}

// `-MM-DD hh:mm:ss`, from at on.
fn put_fields(s: &mut [u8], at: usize, t: Instant)
    requires { at + 15 ≤ length s.old }
    ensures { s.new ≡ sets s.old at (fields_text t) }
{
    let Moment { date, time } = t.moment;
    put_field(s, at, b'-', date.month);
    put_field(s, at + 3, b'-', date.day);
    put_field(s, at + 6, b' ', time.hour);
    put_field(s, at + 9, b':', time.minute);
    put_field(s, at + 12, b':', time.second);
}

// The year, the five fields and the fraction, from the front of s on.
fn put_text(s: &mut [u8], year: Part, t: Instant, fraction: Part)
    requires { length (part_text year) + 15 + length (part_text fraction) ≤ length s.old }
    ensures { s.new ≡ sets s.old 0 (part_text year ++ fields_text t ++ part_text fraction) }
{
    let at = put_part(s, 0, year);
    put_fields(s, at, t);
    put_part(s, at + 15, fraction);
}

// The text of t in the line, from the place `at` on: how many bytes it has, which is known before one is written.
fn print_at(
    t: Instant,
    precision: Option<usize>,
    line: &mut [u8],
    at: usize,
) -> Result<usize, PrintError>
    requires { Ranged t }
    ensures answered { said result ≡ answer line.old at (text t precision) }
    ensures written { line.new ≡ line_after line.old at (text t precision) }
{
    if line.len() < at {
        return Err(PrintError::StartOutside);
    }
    let year = year_part(t.moment.date.year);
    let fraction = fraction_part(t.nanos, precision);
    let without_fraction = part_length(year) + 15;
    let length = without_fraction + part_length(fraction);
    let room = line.len() - at;
    if room < length {
        return Err(PrintError::NoRoom(length as u32));
    }
    put_text(&mut line[at..], year, t, fraction);
    Ok(length)
}

// The text of a timestamp over an epoch, written from the place `at` in the line: how many bytes it has, or why none were written.
pub fn display(
    t: TaiTime,
    epoch: Epoch,
    precision: Option<usize>,
    line: &mut [u8],
    at: usize,
) -> Result<usize, PrintError>
    ensures { (said result, line.new) ≡ displayed t.secs t.nanos epoch.0 precision line.old at }
{
    if 999_999_999 < t.nanos {
        return Err(PrintError::BadNanos);
    }
    let moment = secs_to_date_time(t.secs, epoch.0);
    let instant = Instant {
        moment,
        nanos: t.nanos,
    };
    print_at(instant, precision, line, at)
}
