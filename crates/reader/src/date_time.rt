// The whole text: the short way where it fits, else stage by stage.
ghost use Rattle.std.specs.Prelude.{◌≡◌, ◌^◌, ◌<◌};
ghost use Rattle.stages.specs.Text.{parsed};

use errors::ParseDateTimeError;
use fields::Delimiter;
use stages::{DateTime, is_usual, parse_from_month, parse_usual, skip_sign, with_sign};

// The size of the year is at most limit.
pub(crate) fn parse_date_time(text: &[u8], limit: u64) -> Result<DateTime, ParseDateTimeError>
    requires { limit < 2 ^ 63 }
    ensures { result ≡ parsed limit text.now }
{
    if 9999 <= limit && is_usual(text) {
        return parse_usual(text);
    }
    let negative = decimals::begins_with(text, b'-');
    let text = skip_sign(text);
    let n = fields::find(text, Delimiter::Hyphen);
    if text.len() <= n {
        return Err(ParseDateTimeError::MissingField);
    }
    if n < 4 {
        return Err(ParseDateTimeError::InvalidFieldWidth);
    }
    let Some(size) = decimals::parse_number(&text[..n], limit) else {
        return Err(ParseDateTimeError::InvalidFieldValue);
    };
    let year = with_sign(negative, size);
    parse_from_month(year, decimals::skip(text, n + 1))
}
