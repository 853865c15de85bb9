// The fields of a text: what stands before a delimiter.
#![tactic(auto)]

ghost use Rattle.std.specs.Prelude.{◌≡◌, ◌≤◌, length};
ghost use Rattle.fields.specs.Fields.{is_delimiter, width, two_digits, fraction, seconds};

use errors::ParseDateTimeError;

#[derive(Clone, Copy)]
pub enum Delimiter {
    Hyphen,
    SpaceOrT,
    Colon,
    Point,
}

// Got: its delimiter follows. Last: the text ends behind it.
#[derive(Clone, Copy)]
pub enum Field {
    Got(u8),
    Last(u8),
}

#[derive(Clone, Copy)]
pub struct Seconds {
    pub sec: u8,
    pub nano: u32,
}

#[tactic(auto, unfolding(crate::specs::Fields::is_delimiter))]
pub fn is_delimiter(delimiter: Delimiter, byte: u8) -> bool
    ensures { result ≡ is_delimiter delimiter byte }
{
    match delimiter {
        Delimiter::Hyphen => byte == b'-',
        Delimiter::SpaceOrT => matches!(byte, b' ' | b'T' | b't'),
        Delimiter::Colon => byte == b':',
        Delimiter::Point => byte == b'.',
    }
}

// How many bytes stand before the first delimiter.
pub fn find(s: &[u8], delimiter: Delimiter) -> usize
    ensures value { result ≡ width delimiter s.now }
    ensures within { result ≤ length s.now }
{
    s.iter()
        .position(|x| is_delimiter(delimiter, *x))
        .unwrap_or(s.len())
}

// Two digits are no delimiter, so that the byte behind them tells the width; anything else is refused, by its width.
pub fn pull_two_digits(s: &[u8], delimiter: Delimiter) -> Result<Field, ParseDateTimeError>
    ensures { result ≡ two_digits delimiter s.now }
{
    if s.len() < 2 {
        return Err(ParseDateTimeError::InvalidFieldWidth);
    }
    if decimals::is_digit(s[0]) && decimals::is_digit(s[1]) {
        let value = decimals::pair(s, 0);
        if s.len() == 2 {
            return Ok(Field::Last(value));
        }
        if is_delimiter(delimiter, s[2]) {
            return Ok(Field::Got(value));
        }
        return Err(ParseDateTimeError::InvalidFieldWidth);
    }
    if find(s, delimiter) == 2 {
        Err(ParseDateTimeError::InvalidFieldValue)
    } else {
        Err(ParseDateTimeError::InvalidFieldWidth)
    }
}

// Nine places, of which those behind the last digit are 0; every digit is validated, those past nine too.
pub fn pull_fraction(sec: u8, digits: &[u8]) -> Result<Seconds, ParseDateTimeError>
    ensures { result ≡ fraction sec digits.now }
{
    if digits.is_empty() {
        return Err(ParseDateTimeError::MissingField);
    }
    let mut nano: u32 = 0;
    for i in 0..9 {
        nano *= 10;
        if let Some(x) = digits.get(i) {
            if !decimals::is_digit(*x) {
                return Err(ParseDateTimeError::InvalidFieldValue);
            }
            nano += u32::from(*x - b'0');
        }
    }
    if 9 < digits.len() && !digits[9..].iter().all(|x| decimals::is_digit(*x)) {
        return Err(ParseDateTimeError::InvalidFieldValue);
    }
    Ok(Seconds { sec, nano })
}

pub fn pull_seconds(s: &[u8]) -> Result<Seconds, ParseDateTimeError>
    ensures { result ≡ seconds s.now }
{
    match pull_two_digits(s, Delimiter::Point)? {
        Field::Got(sec) => pull_fraction(sec, decimals::skip(s, 3)),
        Field::Last(sec) => Ok(Seconds { sec, nano: 0 }),
    }
}
