// Moments: dates and times of day from counts, and counts from them. The names are those of date_time.rs in the Rust.
#![tactic(auto)]

ghost use Rattle.std.specs.Prelude.{◌≡◌, ◌≤◌, ◌<◌, nat_abs, pos, ◌+ℤ◌, ◌-ℤ◌};
ghost use Rattle.integers.specs.Integers.{Floor, checked};
ghost use Rattle.calendar.specs.Walk.{Valid};
ghost use Rattle.moments.specs.Moments.{time_of_day, moment_at, ValidTime, second_of_day, seconds_of};

use calendar::{Date, date_in_cycle, day_of_date};
use integers::{Parts, add_parts, floor_join, floor_split, sub_parts};

#[derive(Clone, Copy)]
pub struct Time {
    pub hour: u8,
    pub minute: u8,
    pub second: u8,
}

#[derive(Clone, Copy)]
pub struct Moment {
    pub date: Date,
    pub time: Time,
}

// The seconds of 400 years.
const CYCLE_SECS: u64 = 12_622_780_800;

// The seconds from year 0 to 1970.
const SECS_TO_1970: i64 = 62_167_219_200;

const DAY_SECS: u64 = 86_400;

// Of years and epochs within these ends no difference of seconds leaves i64.
const NEAR_YEARS: i64 = 10_000_000_000;

const NEAR_EPOCHS: i64 = 1 << 62;

#[tactic(auto, unfolding(crate::specs::Moments::time_of_day))]
fn time_at(second: u32) -> Time
    requires { second < 86400 }
    ensures { result ≡ time_of_day second }
{
    Time {
        hour: (second / 3600) as u8,
        minute: (second / 60 % 60) as u8,
        second: (second % 60) as u8,
    }
}

// The cycles from year 0 to seconds plus epoch, and the seconds behind them.
fn from_year_0(seconds: i64, epoch: i64) -> Parts
    ensures { Floor 12622780800 (seconds +ℤ epoch +ℤ pos 62167219200) result.quotient result.rest }
{
    if let Some(sum) = seconds.checked_add(epoch) {
        if let Some(sum) = sum.checked_add(SECS_TO_1970) {
            return floor_split(sum, CYCLE_SECS);
        }
    }
    // The sum need not fit: each addend is split into cycles, and the parts are added.
    let sum = add_parts(
        floor_split(seconds, CYCLE_SECS),
        floor_split(epoch, CYCLE_SECS),
        CYCLE_SECS,
    );
    add_parts(sum, floor_split(SECS_TO_1970, CYCLE_SECS), CYCLE_SECS)
}

// The moment at seconds plus epoch.
pub fn secs_to_date_time(seconds: i64, epoch: i64) -> Moment
    ensures { result ≡ moment_at (seconds +ℤ epoch) }
{
    let parts = from_year_0(seconds, epoch);
    Moment {
        date: date_in_cycle(parts.quotient, (parts.rest / DAY_SECS) as u32),
        time: time_at((parts.rest % DAY_SECS) as u32),
    }
}

#[tactic(auto, unfolding(crate::specs::Moments::second_of_day))]
fn second_of_day(t: Time) -> u64
    requires { ValidTime t }
    ensures { result ≡ second_of_day t }
{
    t.hour as u64 * 3600 + t.minute as u64 * 60 + t.second as u64
}

// The seconds at a moment, where the year is so near that an i64 holds them.
fn secs_from_1970(m: Moment) -> i64
    requires { (nat_abs m.date.year ≤ 10_000_000_000) × Valid m.date × ValidTime m.time }
    ensures { result ≡ seconds_of m }
{
    day_of_date(m.date) * DAY_SECS as i64 + second_of_day(m.time) as i64
}

// The count of a moment over an epoch, where the year is so near that an i64 holds the moment's seconds; over an epoch within ±2^62 their difference fits.
pub fn near_to_secs(m: Moment, epoch: i64) -> Option<i64>
    requires { (nat_abs m.date.year ≤ 10_000_000_000) × Valid m.date × ValidTime m.time }
    ensures { result ≡ checked (seconds_of m -ℤ epoch) }
{
    let secs = secs_from_1970(m);
    if -NEAR_EPOCHS <= epoch && epoch <= NEAR_EPOCHS {
        return Some(secs - epoch);
    }
    secs.checked_sub(epoch)
}

// The count of a moment over an epoch, decided on the exact sum: the moment's own seconds need not fit.
pub fn date_time_to_secs(m: Moment, epoch: i64) -> Option<i64>
    requires { (nat_abs m.date.year ≤ 1_000_000_000_000) × Valid m.date × ValidTime m.time }
    ensures { result ≡ checked (seconds_of m -ℤ epoch) }
{
    let year = m.date.year;
    if -NEAR_YEARS <= year && year <= NEAR_YEARS {
        return near_to_secs(m, epoch);
    }
    let from_1970 = Parts {
        quotient: day_of_date(m.date),
        rest: second_of_day(m.time),
    };
    let difference = sub_parts(from_1970, floor_split(epoch, DAY_SECS), DAY_SECS);
    floor_join(difference, DAY_SECS)
}
