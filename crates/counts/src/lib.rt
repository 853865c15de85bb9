// Timestamps, durations, and every entry on their counts. The names are those of lib.rs in the Rust.
#![tactic(auto)]

mod constants; // what the constants are
mod date_seconds; // calendar fields to a count

ghost use Rattle.std.specs.Prelude.{◌≡◌};
ghost use Rattle.counts.specs.Said.{said_counted, said_time, said_date_time, said_unix, said_duration, said_ordering};
ghost use Rattle.counts.specs.Counts.{new_time, from_date_time, from_unix, to_unix, over_epoch, added, taken, since, compared};

pub use constants::{Constants, all_constants};
pub use date_seconds::date_time_secs;
use date_seconds::moment_of;
use dates::{DateTime, check_fields};
pub use durations::{Duration, Ordering};
use errors::{CountError, DateTimeError};
use moments::near_to_secs;
pub use seconds::UnixSeconds;
use seconds::check_nanos;

// A reference that seconds count from, in seconds from 1970-01-01 00:00:00 TAI.
#[derive(Clone, Copy)]
pub struct Epoch(pub i64);

// TAI minus UTC, in seconds.
#[derive(Clone, Copy)]
pub struct LeapOffset(pub i64);

// Seconds from an epoch, and nanoseconds that count forward from there.
#[derive(Clone, Copy)]
pub struct TaiTime {
    pub secs: i64,
    pub nanos: u32,
}

// What each is: `all_constants`.
impl Epoch {
    pub const MONOTONIC_TIME: Epoch = Epoch(0);

    pub const GPS_TIME: Epoch = Epoch(315964819);

    pub const GST_TIME: Epoch = Epoch(935280019);

    pub const BDT_TIME: Epoch = Epoch(1136073633);

    pub const TAI_1958_TIME: Epoch = Epoch(-378691200);

    pub const TAI_1972_TIME: Epoch = Epoch(63072000);
}

// A result as a timestamp.
fn timed(counted: Result<(i64, u32), CountError>) -> Result<TaiTime, CountError>
    ensures { said_time result ≡ said_counted counted }
{
    let (secs, nanos) = counted?;
    Ok(TaiTime { secs, nanos })
}

impl TaiTime {
    pub const EPOCH: TaiTime = TaiTime { secs: 0, nanos: 0 };

    pub const MIN: TaiTime = TaiTime {
        secs: i64::MIN,
        nanos: 0,
    };

    pub const MAX: TaiTime = TaiTime {
        secs: i64::MAX,
        nanos: 999_999_999,
    };

    // A timestamp of its parts.
    pub fn new(secs: i64, nanos: u32) -> Result<TaiTime, CountError>
        ensures { said_time result ≡ new_time secs nanos }
    {
        check_nanos(nanos)?;
        Ok(TaiTime { secs, nanos })
    }

    // The timestamp over an epoch that reads as the calendar fields.
    pub fn try_from_date_time(
        epoch: Epoch,
        year: i32,
        month: u8,
        day: u8,
        hour: u8,
        min: u8,
        sec: u8,
        nano: u32,
    ) -> Result<TaiTime, DateTimeError>
        ensures { said_date_time result ≡ from_date_time epoch.0 year month day hour min sec nano }
    {
        let fields = DateTime {
            year: i64::from(year),
            month,
            day,
            hour,
            min,
            sec,
            nano,
        };
        check_fields(fields)?;
        let secs = near_to_secs(moment_of(fields), epoch.0).ok_or(DateTimeError::OutOfRange)?;
        Ok(TaiTime { secs, nanos: nano })
    }

    // From Unix seconds to a timestamp over an epoch; whole seconds in the nanoseconds are carried.
    pub fn try_from_unix_timestamp(
        epoch: Epoch,
        secs: UnixSeconds,
        nanos: u32,
        leap: LeapOffset,
    ) -> Result<TaiTime, CountError>
        ensures { said_time result ≡ from_unix epoch.0 secs.0 nanos leap.0 }
    {
        timed(seconds::from_unix(epoch.0, secs.0, nanos, leap.0))
    }

    // The Unix seconds of a timestamp over an epoch.
    pub fn as_unix_secs(self, epoch: Epoch, leap: LeapOffset) -> Result<UnixSeconds, CountError>
        ensures { said_unix result ≡ to_unix epoch.0 self.secs self.nanos leap.0 }
    {
        seconds::to_unix(epoch.0, self.secs, self.nanos, leap.0)
    }

    // The same moment, counted from another epoch.
    pub fn to_tai_time(self, old: Epoch, new: Epoch) -> Result<TaiTime, CountError>
        ensures { said_time result ≡ over_epoch old.0 new.0 self.secs self.nanos }
    {
        timed(seconds::over_epoch(old.0, new.0, self.secs, self.nanos))
    }

    // The timestamp that lies a duration later.
    pub fn checked_add(self, d: Duration) -> Result<TaiTime, CountError>
        ensures { said_time result ≡ added self.secs self.nanos d.secs d.nanos }
    {
        timed(durations::add(self.secs, self.nanos, d.secs, d.nanos))
    }

    // The timestamp that lies a duration earlier.
    pub fn checked_sub(self, d: Duration) -> Result<TaiTime, CountError>
        ensures { said_time result ≡ taken self.secs self.nanos d.secs d.nanos }
    {
        timed(durations::sub(self.secs, self.nanos, d.secs, d.nanos))
    }

    // How long after an earlier timestamp over the same epoch this is.
    pub fn checked_duration_since(self, earlier: TaiTime) -> Result<Duration, CountError>
        ensures { said_duration result ≡ since self.secs self.nanos earlier.secs earlier.nanos }
    {
        durations::since(self.secs, self.nanos, earlier.secs, earlier.nanos)
    }

    // Whether it is earlier than, the same as or later than another timestamp over the same epoch.
    pub fn cmp(self, other: TaiTime) -> Result<Ordering, CountError>
        ensures { said_ordering result ≡ compared self.secs self.nanos other.secs other.nanos }
    {
        durations::compare(self.secs, self.nanos, other.secs, other.nanos)
    }
}
