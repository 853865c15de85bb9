// The entries on counts and durations. Of a duration dsecs and dnanos, of another timestamp osecs and onanos.
ghost use Rattle.std.specs.Prelude.{◌≡◌};
ghost use Rattle.counts.specs.Counts.{new_time, from_date_time, from_unix, to_unix, over_epoch, added, taken, since, compared};
ghost use Rattle.records_box.specs.Results.{time_result, unix_result, duration_result, ordering_result};

use crate::results::{ordering_result, refused, time, time_result};
use crate::{DurationResult, OrderingResult, TimeResult, UnixResult};
use counts::{Duration, Epoch, LeapOffset, TaiTime, UnixSeconds};
use errors::Refusal;

#[unsafe(no_mangle)]
pub extern "C" fn tai_new(secs: i64, nanos: u32) -> TimeResult
    ensures { result ≡ time_result (new_time secs nanos) }
{
    time_result(TaiTime::new(secs, nanos))
}

#[unsafe(no_mangle)]
pub extern "C" fn tai_try_from_date_time(
    epoch: i64,
    year: i32,
    month: u8,
    day: u8,
    hour: u8,
    min: u8,
    sec: u8,
    nano: u32,
) -> TimeResult
    ensures { result ≡ time_result (from_date_time epoch year month day hour min sec nano) }
{
    match TaiTime::try_from_date_time(Epoch(epoch), year, month, day, hour, min, sec, nano) {
        Ok(t) => time(t.secs, t.nanos),
        Err(e) => refused(e.into()),
    }
}

#[unsafe(no_mangle)]
pub extern "C" fn tai_try_from_unix_timestamp(
    epoch: i64,
    secs: i64,
    nanos: u32,
    leap: i64,
) -> TimeResult
    ensures { result ≡ time_result (from_unix epoch secs nanos leap) }
{
    time_result(TaiTime::try_from_unix_timestamp(
        Epoch(epoch),
        UnixSeconds(secs),
        nanos,
        LeapOffset(leap),
    ))
}

#[unsafe(no_mangle)]
pub extern "C" fn tai_as_unix_secs(epoch: i64, secs: i64, nanos: u32, leap: i64) -> UnixResult
    ensures { result ≡ unix_result (to_unix epoch secs nanos leap) }
{
    let t = TaiTime { secs, nanos };
    match t.as_unix_secs(Epoch(epoch), LeapOffset(leap)) {
        Ok(u) => UnixResult {
            refusal: -1,
            secs: u.0,
        },
        Err(e) => UnixResult {
            refusal: Refusal::from(e).number() as i32,
            secs: 0,
        },
    }
}

#[unsafe(no_mangle)]
pub extern "C" fn tai_to_tai_time(old: i64, new: i64, secs: i64, nanos: u32) -> TimeResult
    ensures { result ≡ time_result (over_epoch old new secs nanos) }
{
    let t = TaiTime { secs, nanos };
    time_result(t.to_tai_time(Epoch(old), Epoch(new)))
}

#[unsafe(no_mangle)]
pub extern "C" fn tai_checked_add(secs: i64, nanos: u32, dsecs: u64, dnanos: u32) -> TimeResult
    ensures { result ≡ time_result (added secs nanos dsecs dnanos) }
{
    let t = TaiTime { secs, nanos };
    time_result(t.checked_add(Duration {
        secs: dsecs,
        nanos: dnanos,
    }))
}

#[unsafe(no_mangle)]
pub extern "C" fn tai_checked_sub(secs: i64, nanos: u32, dsecs: u64, dnanos: u32) -> TimeResult
    ensures { result ≡ time_result (taken secs nanos dsecs dnanos) }
{
    let t = TaiTime { secs, nanos };
    time_result(t.checked_sub(Duration {
        secs: dsecs,
        nanos: dnanos,
    }))
}

#[unsafe(no_mangle)]
pub extern "C" fn tai_checked_duration_since(
    secs: i64,
    nanos: u32,
    osecs: i64,
    onanos: u32,
) -> DurationResult
    ensures { result ≡ duration_result (since secs nanos osecs onanos) }
{
    let t = TaiTime { secs, nanos };
    match t.checked_duration_since(TaiTime {
        secs: osecs,
        nanos: onanos,
    }) {
        Ok(d) => DurationResult {
            refusal: -1,
            nanos: d.nanos,
            secs: d.secs,
        },
        Err(e) => DurationResult {
            refusal: Refusal::from(e).number() as i32,
            nanos: 0,
            secs: 0,
        },
    }
}

#[unsafe(no_mangle)]
pub extern "C" fn tai_cmp(secs: i64, nanos: u32, osecs: i64, onanos: u32) -> OrderingResult
    ensures { result ≡ ordering_result (compared secs nanos osecs onanos) }
{
    let t = TaiTime { secs, nanos };
    match t.cmp(TaiTime {
        secs: osecs,
        nanos: onanos,
    }) {
        Ok(o) => ordering_result(o),
        Err(e) => OrderingResult {
            refusal: Refusal::from(e).number() as i32,
            ordering: 0,
        },
    }
}
