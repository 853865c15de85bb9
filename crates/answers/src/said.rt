// What an entry answered, in the one form of all answers.
ghost use Rattle.std.specs.Prelude.{◌≡◌, MatchResult, IsOkAnd, IsErrAnd};
ghost use Rattle.answers.specs.declared.said.Said.TheVariants.{Time, Unix, Lasts, Number, Order};

use counts::{Duration, TaiTime, UnixSeconds};
use errors::Refusal;
use std::cmp::Ordering;

// What an entry gives where it does not refuse.
#[derive(Clone, Copy)]
pub enum Said {
    Time(i64, u32), // seconds and nanoseconds
    Unix(i64), // seconds
    Lasts(u64, u32), // seconds and nanoseconds
    Number(u64),
    Order(Ordering),
}

impl From<TaiTime> for Said {
    ghost from_gives = { λ t said. said ≡ Time t.secs t.nanos };

    fn from(t: TaiTime) -> Said {
        Said::Time(t.secs, t.nanos)
    }
}

impl From<UnixSeconds> for Said {
    ghost from_gives = { λ u said. said ≡ Unix u.0 };

    fn from(u: UnixSeconds) -> Said {
        Said::Unix(u.0)
    }
}

impl From<Duration> for Said {
    ghost from_gives = { λ d said. said ≡ Lasts d.secs d.nanos };

    fn from(d: Duration) -> Said {
        Said::Lasts(d.secs, d.nanos)
    }
}

impl From<usize> for Said {
    ghost from_gives = { λ n said. said ≡ Number n };

    fn from(n: usize) -> Said {
        Said::Number(n as u64)
    }
}

impl From<Ordering> for Said {
    ghost from_gives = { λ order said. said ≡ Order order };

    fn from(order: Ordering) -> Said {
        Said::Order(order)
    }
}

// An entry's own answer.
pub fn answered<T: Into<Said>, E: Into<Refusal>>(answer: Result<T, E>) -> Result<Said, Refusal>
    ensures { MatchResult answer (λ t. IsOkAnd result (T.converts t)) (λ e. IsErrAnd result (E.converts e)) }
{
    match answer {
        Ok(t) => Ok(t.into()),
        Err(e) => Err(e.into()),
    }
}
