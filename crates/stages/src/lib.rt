// The stages of a text behind its year, and the year's sign.
#![tactic(auto)]

mod usual; // the short way of most texts

ghost use Rattle.std.specs.Prelude.{◌≡◌, ◌^◌, ◌<◌, MatchResult};
ghost use Rattle.stages.specs.Text.{with_sign, without_sign, field, from_month};

pub use dates::DateTime;
use errors::ParseDateTimeError;
use fields::{Delimiter, Field, Seconds};
pub use usual::{is_usual, parse_usual};

pub fn with_sign(negative: bool, size: u64) -> i64
    requires { size < 2 ^ 63 }
    ensures { result ≡ with_sign negative size }
{
    let year = size as i64;
    if negative { -year } else { year }
}

#[tactic(auto, unfolding(crate::specs::Text::without_sign, decimals::specs::Numbers::begins_with))]
pub fn skip_sign(text: &[u8]) -> &[u8]
    ensures { result.now ≡ without_sign text.now }
{
    match text {
        [b'+' | b'-', rest @ ..] => rest,
        _ => text,
    }
}

// A field's value and the text behind its delimiter: the field takes three bytes with it.
fn pull_field(text: &[u8], delimiter: Delimiter) -> Result<(u8, &[u8]), ParseDateTimeError>
    ensures { MatchResult result (λ p. (next : _) → field delimiter text.now next ≡ next p.0 p.1.now) (λ e. (next : _) → field delimiter text.now next ≡ Err e) }
{
    match fields::pull_two_digits(text, delimiter)? {
        Field::Got(value) => Ok((value, decimals::skip(text, 3))),
        Field::Last(_) => Err(ParseDateTimeError::MissingField),
    }
}

pub fn parse_from_month(year: i64, text: &[u8]) -> Result<DateTime, ParseDateTimeError>
    ensures { result ≡ from_month year text.now }
{
    let (month, text) = pull_field(text, Delimiter::Hyphen)?;
    let (day, text) = pull_field(text, Delimiter::SpaceOrT)?;
    let (hour, text) = pull_field(text, Delimiter::Colon)?;
    let (min, text) = pull_field(text, Delimiter::Colon)?;
    let Seconds { sec, nano } = fields::pull_seconds(text)?;
    Ok(DateTime {
        year,
        month,
        day,
        hour,
        min,
        sec,
        nano,
    })
}
