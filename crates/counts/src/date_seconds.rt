// Calendar fields to a count.
ghost use Rattle.std.specs.Prelude.{◌≡◌, ◌≤◌, nat_abs};
ghost use Rattle.calendar.specs.Walk.{date};
ghost use Rattle.counts.specs.Said.{said_secs};
ghost use Rattle.counts.specs.Counts.{date_time_secs};

use calendar::Date;
use dates::{DateTime, check_fields};
use errors::DateTimeError;
use moments::{Moment, Time, date_time_to_secs};

// The moment that fields name.
pub(crate) fn moment_of(d: DateTime) -> Moment
    ensures { result ≡ record { date = date d.year d.month d.day; time = record { hour = d.hour; minute = d.min; second = d.sec } } }
{
    Moment {
        date: Date {
            year: d.year,
            month: d.month,
            day: d.day,
        },
        time: Time {
            hour: d.hour,
            minute: d.min,
            second: d.sec,
        },
    }
}

// The seconds of calendar fields over an epoch: refusals 0 to 6.
pub fn date_time_secs(epoch: i64, d: DateTime) -> Result<i64, DateTimeError>
    requires { nat_abs d.year ≤ 1_000_000_000_000 }
    ensures { said_secs result ≡ date_time_secs epoch d.year d.month d.day d.hour d.min d.sec d.nano }
{
    check_fields(d)?;
    date_time_to_secs(moment_of(d), epoch).ok_or(DateTimeError::OutOfRange)
}
