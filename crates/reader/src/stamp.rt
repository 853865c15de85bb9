// A text to a timestamp.
ghost use Rattle.std.specs.Prelude.{◌≡◌};
ghost use Rattle.reader.specs.Stamp.{said_read, read_text, year_limit};

use crate::date_time::parse_date_time;
use counts::{Epoch, TaiTime, date_time_secs};
use errors::ParseDateTimeError;

// The size of a year in a text is at most this.
const YEAR_LIMIT: u64 = i32::MAX as u64;

// The date's rules are asked once the whole text was read.
pub fn from_str(text: &[u8], epoch: Epoch) -> Result<TaiTime, ParseDateTimeError>
    ensures { said_read result ≡ read_text year_limit epoch.0 text.now }
{
    let fields = parse_date_time(text, YEAR_LIMIT)?;
    let secs = date_time_secs(epoch.0, fields)?;
    Ok(TaiTime {
        secs,
        nanos: fields.nano,
    })
}
