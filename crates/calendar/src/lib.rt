// The calendar: dates from days and days from dates. The names are those of date_time.rs in the Rust.
#![tactic(auto)]

ghost use Rattle.std.specs.Prelude.{◌≡◌, ◌+◌, ◌-◌, ◌/◌, ◌≤◌, ◌<◌, leb, nat_abs, pos, ◌+ℤ◌, ◌-ℤ◌, ◌*ℤ◌};
ghost use Rattle.calendar.specs.Walk.{is_leap, month_row, month_length, Valid, date, walk};
ghost use Rattle.calendar.specs.Closed.{year_length, year_start, sum_to, day_of_year, day_number, InCycle, InYear};

#[derive(Clone, Copy)]
pub struct Date {
    pub year: i64,
    pub month: u8,
    pub day: u8,
}

// The month lengths, in common years and in leap years.
const DAYS_IN_MONTH: [[u8; 12]; 2] = [
    [31, 28, 31, 30, 31, 30, 31, 31, 30, 31, 30, 31],
    [31, 29, 31, 30, 31, 30, 31, 31, 30, 31, 30, 31],
];

// The days of 400 years.
const CYCLE_DAYS: u32 = 146_097;

// Of a century year, 400 divides it exactly where 16 does.
pub fn is_leap(year: i64) -> bool
    ensures { result ≡ is_leap year }
{
    if year % 100 == 0 {
        year % 16 == 0
    } else {
        year % 4 == 0
    }
}

pub fn days_in_month(year: i64, month: u8) -> u8
    requires { (1 ≤ month) × (month ≤ 12) }
    ensures { result ≡ month_length year month }
{
    let leap = is_leap(year) as usize;
    let index = (month - 1) as usize;
    DAYS_IN_MONTH[leap][index]
}

// Whether a month has the day. Every month has 28, so few days are looked up.
pub fn is_day_of_month(year: i64, month: u8, day: u8) -> bool
    requires { (1 ≤ month) × (month ≤ 12) }
    ensures { result ≡ leb day (month_length year month) }
{
    day <= 28 || day <= days_in_month(year, month)
}

// The days of a year before a month that is counted from 0: months of 489/16 days, less what February lacks of 30.
fn doy_at_month(leap: bool, index: usize) -> u32
    requires { index ≤ 12 }
    ensures { result ≡ sum_to (month_row leap) index }
{
    let even = (index as u32 * 489 + 8) / 16;
    if index < 2 {
        even
    } else {
        even - 2 + leap as u32
    }
}

// The day of the year, from 0.
pub fn day_of_year(d: Date) -> u32
    requires { Valid d }
    ensures { result ≡ day_of_year d }
{
    doy_at_month(is_leap(d.year), (d.month - 1) as usize) + (d.day - 1) as u32
}

// The month, from 0, that a day of the year lies in: with the days that February lacks of 30, months have 2048/67 days.
fn month_at_doy(leap: bool, doy: u32) -> usize
    requires { doy < year_length leap }
    ensures { (result ≤ 11) × (sum_to (month_row leap) result ≤ doy) × (doy < sum_to (month_row leap) (result + 1)) }
{
    let lacking = 2 - leap as u32;
    let even = if doy + lacking < 61 {
        doy
    } else {
        doy + lacking
    };
    ((even * 67 + 30) / 2048) as usize
}

#[derive(Clone, Copy)]
pub struct MonthDay {
    pub month: u8,
    pub day: u8,
}

// The month and the day of the month of a day of the year, from 0.
pub fn month_and_day_of_month(year: i64, doy: u32) -> MonthDay
    requires { doy < year_length (is_leap year) }
    ensures { InYear year doy result.month result.day }
{
    let leap = is_leap(year);
    let index = month_at_doy(leap, doy);
    MonthDay {
        month: index as u8 + 1,
        day: (doy - doy_at_month(leap, index)) as u8 + 1,
    }
}

// The leap years among the first years of a cycle, or of several.
fn leap_years(years: u64) -> u64
    requires { years ≤ 2_000_000_000_401 }
    ensures { result ≡ (years + 3) / 4 - (years + 99) / 100 + (years + 399) / 400 }
{
    let m100 = (years + 99) / 100;
    (years + 3) / 4 - m100 + (m100 + 3) / 4
}

// The days from the first day of year 0 to that of the year. Leap years are counted from 2,500,000,001 cycles before year 0, so that no year is below 0.
pub fn days_from_year_0(year: i64) -> i64
    requires { nat_abs year ≤ 1_000_000_000_001 }
    ensures { result ≡ year_start year }
{
    let years = (year + 1_000_000_000_400) as u64;
    year * 365 + leap_years(years) as i64 - 242_500_000_097
}

// A year of the 400-year cycle, and the day of that year, from 0.
#[derive(Clone, Copy)]
pub struct YearDay {
    pub year: u32,
    pub day: u32,
}

// A century has a quarter of the cycle's days, and its year a quarter of 1461, but where it starts with a common year.
fn year_in_cycle(day: u32) -> YearDay
    requires { day < 146_097 }
    ensures { InCycle day result.year result.day }
{
    let n100 = day * 4 / CYCLE_DAYS;
    let day = day - n100 * CYCLE_DAYS / 4;
    let n1 = day * 4 / 1461;
    // Every century but the cycle's first starts with a common year.
    if n1 == 0 && 0 < n100 {
        YearDay {
            year: n100 * 100,
            day: day - 1,
        }
    } else {
        YearDay {
            year: n100 * 100 + n1,
            day: day - (n1 * 1461 + 3) / 4,
        }
    }
}

// The date of a day of a cycle; cycle 0 starts with year 0.
pub fn date_in_cycle(cycle: i64, day: u32) -> Date
    requires { (nat_abs cycle ≤ 10_000_000_000) × (day < 146_097) }
    ensures { result ≡ walk (cycle *ℤ pos 146_097 +ℤ pos day -ℤ pos 719_528) }
{
    let found = year_in_cycle(day);
    let year = cycle * 400 + found.year as i64;
    let MonthDay { month, day } = month_and_day_of_month(year, found.day);
    Date { year, month, day }
}

// The day on which the walk reaches the date.
pub fn day_of_date(d: Date) -> i64
    requires { (nat_abs d.year ≤ 1_000_000_000_000) × Valid d }
    ensures { result ≡ day_number d }
{
    // Years that start with March end with February, so that no day of theirs asks for leapness: months of 979/32 days, 306 days before January, and days from 1.
    let (year, month) = if d.month < 3 {
        (d.year, d.month as u32 + 12)
    } else {
        (d.year + 1, d.month as u32)
    };
    days_from_year_0(year) + ((month * 979 - 2919) / 32 + d.day as u32) as i64 - 719_835
}
