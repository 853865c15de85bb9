// The entries on text and on moments.
ghost use Rattle.std.specs.Prelude.{◌≡◌, ◌+ℤ◌};
ghost use Rattle.moments.specs.Moments.{moment_at};
ghost use Rattle.reader.specs.Stamp.{read_text, year_limit};
ghost use Rattle.printer.specs.Display.{displayed};
ghost use Rattle.records_box.specs.Results.{time_result, moment_result, precision_of, line_result};

use crate::results::{length_refused, precision_of, refused, time};
use crate::{LengthResult, MomentResult, TimeResult};
use counts::{Epoch, TaiTime};

#[unsafe(no_mangle)]
pub extern "C" fn tai_from_str(epoch: i64, text: &[u8]) -> TimeResult
    ensures { result ≡ time_result (read_text year_limit epoch text.now) }
{
    match reader::from_str(text, Epoch(epoch)) {
        Ok(t) => time(t.secs, t.nanos),
        Err(e) => refused(e.into()),
    }
}

#[unsafe(no_mangle)]
pub extern "C" fn tai_display(
    epoch: i64,
    secs: i64,
    nanos: u32,
    given: i32,
    digits: usize,
    line: &mut [u8],
    at: usize,
) -> LengthResult
    ensures { (result, line.new) ≡ line_result (displayed secs nanos epoch (precision_of given digits) line.old at) }
{
    let t = TaiTime { secs, nanos };
    match printer::display(t, Epoch(epoch), precision_of(given, digits), line, at) {
        Ok(length) => LengthResult {
            refusal: -1,
            wanted: 0,
            length,
        },
        Err(e) => length_refused(e.into()),
    }
}

// The moment that a timestamp reads as over an epoch.
#[unsafe(no_mangle)]
pub extern "C" fn tai_secs_to_date_time(epoch: i64, secs: i64) -> MomentResult
    ensures { result ≡ moment_result (moment_at (secs +ℤ epoch)) }
{
    let m = moments::secs_to_date_time(secs, epoch);
    let date = m.date;
    let time = m.time;
    MomentResult {
        year: date.year,
        month: date.month,
        day: date.day,
        hour: time.hour,
        minute: time.minute,
        second: time.second,
    }
}
