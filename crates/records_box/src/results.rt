// How an answer is put into a struct of C.
ghost use Rattle.std.specs.Prelude.{◌≡◌};
ghost use Rattle.errors.specs.Refusals.{gives};
ghost use Rattle.errors.specs.Told.{told};
ghost use Rattle.counts.specs.Said.{said_time};
ghost use Rattle.records_box.specs.Results.{time_result, ordering_result, length_result, precision_of};

use crate::{LengthResult, OrderingResult, TimeResult};
use counts::TaiTime;
use errors::{CountError, Refusal};
use std::cmp::Ordering;

pub fn time(secs: i64, nanos: u32) -> TimeResult
    ensures { result ≡ time_result (gives (secs, nanos)) }
{
    TimeResult {
        refusal: -1,
        in_range_error: 0,
        value: 0,
        nanos,
        secs,
    }
}

pub fn refused(r: Refusal) -> TimeResult
    ensures { result ≡ time_result (told r) }
{
    TimeResult {
        refusal: r.number() as i32,
        in_range_error: r.in_range_error() as i32,
        value: r.value().unwrap_or(0),
        nanos: 0,
        secs: 0,
    }
}

pub fn time_result(answer: Result<TaiTime, CountError>) -> TimeResult
    ensures { result ≡ time_result (said_time answer) }
{
    match answer {
        Ok(t) => time(t.secs, t.nanos),
        Err(e) => refused(e.into()),
    }
}

pub fn length_refused(r: Refusal) -> LengthResult
    ensures { result ≡ length_result (told r) }
{
    let x = refused(r);
    LengthResult {
        refusal: x.refusal,
        wanted: x.value,
        length: 0,
    }
}

pub fn ordering_result(o: Ordering) -> OrderingResult
    ensures { result ≡ ordering_result (gives o) }
{
    OrderingResult {
        refusal: -1,
        ordering: match o {
            Ordering::Less => -1,
            Ordering::Equal => 0,
            Ordering::Greater => 1,
        },
    }
}

// given is 0 where the precision is absent.
pub fn precision_of(given: i32, digits: usize) -> Option<usize>
    ensures { result ≡ precision_of given digits }
{
    if given == 0 { None } else { Some(digits) }
}
