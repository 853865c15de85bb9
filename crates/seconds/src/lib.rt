// Counts from one reference to another, refused where the exact result is no i64. The Rust also refuses where only a partial sum is none.
#![tactic(auto)]

ghost use Rattle.std.specs.Prelude.{◌≡◌, ◌≤◌, ◌<◌, MatchResult};
ghost use Rattle.errors.specs.declared.CountError.TheVariants.{BadNanos};
ghost use Rattle.seconds.specs.Said.{said_counted, said_unix};
ghost use Rattle.seconds.specs.Counts.{from_unix, to_unix, over_epoch};

use errors::CountError;
use integers::checked_sum;

pub const NANOS_PER_SEC: u32 = 1_000_000_000;

// A count of Unix seconds.
#[derive(Clone, Copy)]
pub struct UnixSeconds(pub i64);

// Refusal 11.
pub fn check_nanos(nanos: u32) -> Result<(), CountError>
    ensures { MatchResult result (λ _. nanos < 1_000_000_000) (λ e. (1_000_000_000 ≤ nanos) × (e ≡ BadNanos)) }
{
    if nanos < NANOS_PER_SEC {
        Ok(())
    } else {
        Err(CountError::BadNanos)
    }
}

// Unix to timestamp, as seconds and nanoseconds: + carry, + leap, - epoch.
pub fn from_unix(epoch: i64, unix: i64, nanos: u32, leap: i64) -> Result<(i64, u32), CountError>
    ensures { said_counted result ≡ from_unix epoch unix nanos leap }
{
    let carry = (nanos / NANOS_PER_SEC) as u64;
    let secs = checked_sum(unix, carry, leap, epoch).ok_or(CountError::NotRepresentable)?;
    Ok((secs, nanos % NANOS_PER_SEC))
}

// Timestamp to Unix: - leap, + epoch.
pub fn to_unix(epoch: i64, secs: i64, nanos: u32, leap: i64) -> Result<UnixSeconds, CountError>
    ensures { said_unix result ≡ to_unix epoch secs nanos leap }
{
    check_nanos(nanos)?;
    let unix = checked_sum(secs, 0, epoch, leap).ok_or(CountError::NotRepresentable)?;
    Ok(UnixSeconds(unix))
}

// Change of epoch: old - new, + seconds.
pub fn over_epoch(old: i64, new: i64, secs: i64, nanos: u32) -> Result<(i64, u32), CountError>
    ensures { said_counted result ≡ over_epoch old new secs nanos }
{
    check_nanos(nanos)?;
    let moved = checked_sum(old, 0, secs, new).ok_or(CountError::NotRepresentable)?;
    Ok((moved, nanos))
}
