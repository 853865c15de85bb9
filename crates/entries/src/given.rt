// The words from place i on as values of the entries' types.
ghost use Rattle.std.specs.Prelude.{◌≡◌, ◌+◌, ◌≤◌};
ghost use Rattle.words.specs.Places.{value};
ghost use Rattle.words.specs.Tables.{start_of};
ghost use Rattle.words.specs.declared.kinds.Kind.TheVariants.{Epoch as AnEpoch, I64, U64, U32, Precision};

use counts::{Duration, Epoch, TaiTime};
use words::tables::{NamedEpoch, epoch_row};
use words::values::value_at;
use words::words::word_at;

// The epoch of a name.
fn named(name: NamedEpoch) -> Epoch
    ensures { result.0 ≡ start_of name }
{
    match name {
        NamedEpoch::Monotonic => Epoch::MONOTONIC_TIME,
        NamedEpoch::Gps => Epoch::GPS_TIME,
        NamedEpoch::Gst => Epoch::GST_TIME,
        NamedEpoch::Bdt => Epoch::BDT_TIME,
        NamedEpoch::Tai1958 => Epoch::TAI_1958_TIME,
        NamedEpoch::Tai1972 => Epoch::TAI_1972_TIME,
    }
}

pub fn epoch_word(s: &[u8], i: usize) -> Epoch
    ensures { result.0 ≡ value AnEpoch i s.now }
{
    match epoch_row(word_at(s, i)) {
        Some(name) => named(name),
        None => Epoch(value_at(s, i)),
    }
}

pub fn time_at(s: &[u8], i: usize) -> TaiTime
    requires { i ≤ 1000 }
    ensures secs_value { result.secs ≡ value I64 i s.now }
    ensures nanos_value { result.nanos ≡ value U32 (i + 1) s.now }
{
    TaiTime {
        secs: value_at(s, i),
        nanos: value_at(s, i + 1),
    }
}

pub fn duration_at(s: &[u8], i: usize) -> Duration
    requires { i ≤ 1000 }
    ensures secs_value { result.secs ≡ value U64 i s.now }
    ensures nanos_value { result.nanos ≡ value U32 (i + 1) s.now }
{
    Duration {
        secs: value_at(s, i),
        nanos: value_at(s, i + 1),
    }
}

// `-` for absent.
#[tactic(auto, using(words::proofs::Places::digits_or_none))]
pub fn precision_at(s: &[u8], i: usize) -> Option<usize>
    ensures { result ≡ value Precision i s.now }
{
    if word_at(s, i) == b"-".as_slice() {
        return None;
    }
    Some(value_at::<u64>(s, i) as usize)
}
