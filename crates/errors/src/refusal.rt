// A refusal as every face hands it on.
ghost use Rattle.std.specs.Prelude.{◌≡◌, [], ◌∷◌, ℕ, pos};
ghost use Rattle.errors.specs.Refusals.{refusal, refuses, of_date_time, of_parse, of_count, of_print};
ghost use Rattle.errors.specs.Told.{inner, marked, told, values};

use crate::{CountError, DateTimeError, ParseDateTimeError, PrintError};

#[derive(Clone, Copy)]
pub enum Refusal {
    Date(DateTimeError),
    Text(ParseDateTimeError),
    Count(CountError),
    Print(PrintError),
    // One that a crate brings of its own, made by `bare` or `valued`. None here does: callers may (docs/DECISIONS.md, 29).
    Other {
        number: u8,
        in_range_error: bool,
        value: Option<u32>,
    },
}

impl Refusal {
    // One of a crate's own that has no value.
    pub fn bare(number: u8, in_range_error: bool) -> Refusal
        ensures { told {A = ℕ} result ≡ marked in_range_error (refusal number []) }
    {
        Refusal::Other {
            number,
            in_range_error,
            value: None,
        }
    }

    // One that has a value.
    pub fn valued(number: u8, in_range_error: bool, value: u32) -> Refusal
        ensures { told {A = ℕ} result ≡ marked in_range_error (refusal number (pos value ∷ [])) }
    {
        Refusal::Other {
            number,
            in_range_error,
            value: Some(value),
        }
    }

    // Its number in the table.
    pub fn number(self) -> u8
        ensures { result ≡ (inner self).number }
    {
        match self {
            Refusal::Date(e) | Refusal::Text(ParseDateTimeError::RangeError(e)) => e.number(),
            Refusal::Text(ParseDateTimeError::MissingField) => 7,
            Refusal::Text(ParseDateTimeError::InvalidFieldWidth) => 8,
            Refusal::Text(ParseDateTimeError::InvalidFieldValue) => 9,
            Refusal::Count(CountError::NotRepresentable) => 10,
            Refusal::Count(CountError::BadNanos) | Refusal::Print(PrintError::BadNanos) => 11,
            Refusal::Print(PrintError::StartOutside) => 12,
            Refusal::Print(PrintError::NoRoom(_)) => 13,
            Refusal::Other { number, .. } => number,
        }
    }

    // Its value, if it has one.
    pub fn value(self) -> Option<u32>
        ensures { values result ≡ (inner self).values }
    {
        match self {
            Refusal::Date(e) | Refusal::Text(ParseDateTimeError::RangeError(e)) => e.value(),
            Refusal::Print(PrintError::NoRoom(wanted)) => Some(wanted),
            Refusal::Other { value, .. } => value,
            _ => None,
        }
    }

    // Whether it arrived inside a RangeError, as that of a date in a text does.
    pub fn in_range_error(self) -> bool
        ensures { told {A = ℕ} self ≡ marked result (inner self) }
    {
        match self {
            Refusal::Text(ParseDateTimeError::RangeError(_)) => true,
            Refusal::Other { in_range_error, .. } => in_range_error,
            _ => false,
        }
    }
}

impl DateTimeError {
    fn number(self) -> u8
        ensures { result ≡ (of_date_time self).number }
    {
        match self {
            DateTimeError::InvalidMonth(_) => 0,
            DateTimeError::InvalidDayOfMonth(_) => 1,
            DateTimeError::InvalidHour(_) => 2,
            DateTimeError::InvalidMinute(_) => 3,
            DateTimeError::InvalidSecond(_) => 4,
            DateTimeError::InvalidNanosecond(_) => 5,
            DateTimeError::OutOfRange => 6,
        }
    }

    fn value(self) -> Option<u32>
        ensures { values result ≡ (of_date_time self).values }
    {
        match self {
            DateTimeError::InvalidMonth(v)
            | DateTimeError::InvalidDayOfMonth(v)
            | DateTimeError::InvalidHour(v)
            | DateTimeError::InvalidMinute(v)
            | DateTimeError::InvalidSecond(v) => Some(u32::from(v)),
            DateTimeError::InvalidNanosecond(v) => Some(v),
            DateTimeError::OutOfRange => None,
        }
    }
}

impl From<DateTimeError> for Refusal {
    ghost from_gives = { λ e r. told {A = ℕ} r ≡ refuses (of_date_time e) };

    fn from(e: DateTimeError) -> Refusal {
        Refusal::Date(e)
    }
}

impl From<ParseDateTimeError> for Refusal {
    ghost from_gives = { λ e r. told {A = ℕ} r ≡ of_parse e };

    fn from(e: ParseDateTimeError) -> Refusal {
        Refusal::Text(e)
    }
}

impl From<CountError> for Refusal {
    ghost from_gives = { λ e r. told {A = ℕ} r ≡ refuses (of_count e) };

    fn from(e: CountError) -> Refusal {
        Refusal::Count(e)
    }
}

impl From<PrintError> for Refusal {
    ghost from_gives = { λ e r. told {A = ℕ} r ≡ refuses (of_print e) };

    fn from(e: PrintError) -> Refusal {
        Refusal::Print(e)
    }
}
