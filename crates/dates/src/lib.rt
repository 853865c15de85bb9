// The rules on calendar fields.
#![tactic(auto)]

ghost use Rattle.std.specs.Prelude.{◌≡◌, ℤ};
ghost use Rattle.errors.specs.Refusals.{Outcome};
ghost use Rattle.dates.specs.Said.{said_checked};
ghost use Rattle.dates.specs.Dates.{fields_checked};

use errors::DateTimeError;

// What calendar fields say: no rule was asked yet. The year stands last, since a Result's error lies over the first bytes: reading is quicker so.
#[derive(Clone, Copy)]
pub struct DateTime {
    pub month: u8,
    pub day: u8,
    pub hour: u8,
    pub min: u8,
    pub sec: u8,
    pub nano: u32,
    pub year: i64,
}

// Refusals 0 to 5: of several bad fields the first is refused, in 01's order.
pub fn check_fields(d: DateTime) -> Result<(), DateTimeError>
    ensures { (rest : Outcome ℤ) → said_checked result rest ≡ fields_checked d.year d.month d.day d.hour d.min d.sec d.nano rest }
{
    if d.month < 1 || 12 < d.month {
        return Err(DateTimeError::InvalidMonth(d.month));
    }
    if d.day < 1 || !calendar::is_day_of_month(d.year, d.month, d.day) {
        return Err(DateTimeError::InvalidDayOfMonth(d.day));
    }
    if 23 < d.hour {
        return Err(DateTimeError::InvalidHour(d.hour));
    }
    if 59 < d.min {
        return Err(DateTimeError::InvalidMinute(d.min));
    }
    if 59 < d.sec {
        return Err(DateTimeError::InvalidSecond(d.sec));
    }
    if 999_999_999 < d.nano {
        return Err(DateTimeError::InvalidNanosecond(d.nano));
    }
    Ok(())
}
