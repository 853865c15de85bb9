// Texts of the usual shape.
ghost use Rattle.std.specs.Prelude.{◌≡◌, true, ℕ, ◌≤◌, get_or};
ghost use Rattle.stages.specs.Text.{parsed};
ghost use Rattle.stages.specs.Usual.{usual_shape, fits_byte, is_usual};

use crate::DateTime;
use errors::ParseDateTimeError;
use fields::{Delimiter, Seconds};

// Whether the byte may stand at the place of the usual shape; a digit may stand behind it.
#[tactic(auto, using(crate::proofs::Shape::shape_at), unfolding(crate::specs::Usual::fits_byte, fields::specs::Fields::is_delimiter))]
fn fits_place(place: usize, byte: u8) -> bool
    ensures { result ≡ fits_byte (get_or usual_shape place 48) byte }
{
    match place {
        4 | 7 => fields::is_delimiter(Delimiter::Hyphen, byte),
        10 => fields::is_delimiter(Delimiter::SpaceOrT, byte),
        13 | 16 => fields::is_delimiter(Delimiter::Colon, byte),
        _ => decimals::is_digit(byte),
    }
}

// The compiler unrolls the loop, and each place keeps its own test.
pub fn is_usual(text: &[u8]) -> bool
    ensures { result ≡ is_usual text.now }
{
    if text.len() < 19 {
        return false;
    }
    for i in 0..19 {
        if !fits_place(i, text[i]) {
            return false;
        }
    }
    text.len() == 19 || text[19] == b'.'
}

// The short way of most texts: each field stands in its place, and no delimiter is searched.
#[tactic(auto, using(crate::proofs::Shape::pairs))]
pub fn parse_usual(text: &[u8]) -> Result<DateTime, ParseDateTimeError>
    requires { is_usual text.now ≡ true }
    ensures { (limit : ℕ) → 9999 ≤ limit → result ≡ parsed limit text.now }
{
    let hundreds = i64::from(decimals::pair(text, 0));
    let rest = i64::from(decimals::pair(text, 2));
    let year = hundreds * 100 + rest;
    let month = decimals::pair(text, 5);
    let day = decimals::pair(text, 8);
    let hour = decimals::pair(text, 11);
    let min = decimals::pair(text, 14);
    let sec = decimals::pair(text, 17);
    let Seconds { sec, nano } = if text.len() == 19 {
        Seconds { sec, nano: 0 }
    } else {
        fields::pull_fraction(sec, decimals::skip(text, 20))?
    };
    Ok(DateTime {
        year,
        month,
        day,
        hour,
        min,
        sec,
        nano,
    })
}
