// Timestamps and durations on the exact nanosecond.
#![tactic(auto)]

ghost use Rattle.std.specs.Prelude.{◌≡◌};
ghost use Rattle.seconds.specs.Said.{said_counted};
ghost use Rattle.durations.specs.Said.{said_duration, said_ordering};
ghost use Rattle.durations.specs.Durations.{added, taken, since, compared};

use errors::CountError;
use seconds::{NANOS_PER_SEC, check_nanos};
pub use std::cmp::Ordering;

#[derive(Clone, Copy)]
pub struct Duration {
    pub secs: u64,
    pub nanos: u32,
}

// The timestamp that lies a duration later. The seconds wrap, and a result before the old seconds shows an overflow. The carry is no branch: which way it goes cannot be foretold.
pub fn add(secs: i64, nanos: u32, dsecs: u64, dnanos: u32) -> Result<(i64, u32), CountError>
    ensures { said_counted result ≡ added secs nanos dsecs dnanos }
{
    check_nanos(nanos)?;
    check_nanos(dnanos)?;
    let sum = secs.wrapping_add_unsigned(dsecs);
    if sum < secs {
        return Err(CountError::NotRepresentable);
    }
    let total = nanos + dnanos;
    let carry = (total / NANOS_PER_SEC) as i64;
    let later = sum.checked_add(carry).ok_or(CountError::NotRepresentable)?;
    Ok((later, total % NANOS_PER_SEC))
}

// The timestamp that lies a duration earlier.
pub fn sub(secs: i64, nanos: u32, dsecs: u64, dnanos: u32) -> Result<(i64, u32), CountError>
    ensures { said_counted result ≡ taken secs nanos dsecs dnanos }
{
    check_nanos(nanos)?;
    check_nanos(dnanos)?;
    let difference = secs.wrapping_sub_unsigned(dsecs);
    if secs < difference {
        return Err(CountError::NotRepresentable);
    }
    let rest = nanos + NANOS_PER_SEC - dnanos;
    let borrow = (1 - rest / NANOS_PER_SEC) as i64;
    let earlier = difference
        .checked_sub(borrow)
        .ok_or(CountError::NotRepresentable)?;
    Ok((earlier, rest % NANOS_PER_SEC))
}

// The duration from the second timestamp to the first.
pub fn since(
    secs: i64,
    nanos: u32,
    earlier_secs: i64,
    earlier_nanos: u32,
) -> Result<Duration, CountError>
    ensures { said_duration result ≡ since secs nanos earlier_secs earlier_nanos }
{
    check_nanos(nanos)?;
    check_nanos(earlier_nanos)?;
    if secs < earlier_secs {
        return Err(CountError::NotRepresentable);
    }
    let difference = secs.abs_diff(earlier_secs);
    if earlier_nanos <= nanos {
        return Ok(Duration {
            secs: difference,
            nanos: nanos - earlier_nanos,
        });
    }
    let less_one = difference
        .checked_sub(1)
        .ok_or(CountError::NotRepresentable)?;
    Ok(Duration {
        secs: less_one,
        nanos: nanos + NANOS_PER_SEC - earlier_nanos,
    })
}

// The first timestamp against the second: seconds first, then nanoseconds.
pub fn compare(
    secs: i64,
    nanos: u32,
    other_secs: i64,
    other_nanos: u32,
) -> Result<Ordering, CountError>
    ensures { said_ordering result ≡ compared secs nanos other_secs other_nanos }
{
    check_nanos(nanos)?;
    check_nanos(other_nanos)?;
    Ok(secs.cmp(&other_secs).then(nanos.cmp(&other_nanos)))
}
