// The refusals of document 01's table.
#![tactic(auto)]

mod refusal;

ghost use Rattle.std.specs.Prelude.{◌≡◌};
ghost use Rattle.errors.specs.declared.ParseDateTimeError.TheVariants.{RangeError};

pub use refusal::Refusal;

// Refusals 0 to 6: a date or a time of day that does not exist, or that no count reaches.
#[derive(Clone, Copy)]
pub enum DateTimeError {
    InvalidMonth(u8),
    InvalidDayOfMonth(u8),
    InvalidHour(u8),
    InvalidMinute(u8),
    InvalidSecond(u8),
    InvalidNanosecond(u32),
    OutOfRange,
}

// Refusals 7 to 9: a text that is no timestamp; or its date's refusal.
#[derive(Clone, Copy)]
pub enum ParseDateTimeError {
    MissingField,
    InvalidFieldWidth,
    InvalidFieldValue,
    RangeError(DateTimeError),
}

impl From<DateTimeError> for ParseDateTimeError {
    ghost from_gives = { λ date e. e ≡ RangeError date };

    fn from(e: DateTimeError) -> ParseDateTimeError {
        ParseDateTimeError::RangeError(e)
    }
}

// Refusals 10 and 11: a result that is no timestamp or duration, or nanoseconds that are none.
#[derive(Clone, Copy)]
pub enum CountError {
    NotRepresentable,
    BadNanos,
}

// Refusals 11 to 13: nanoseconds that are none, or a line that has no place for the text; the last tells the text's length.
#[derive(Clone, Copy)]
pub enum PrintError {
    BadNanos,
    StartOutside,
    NoRoom(u32),
}
