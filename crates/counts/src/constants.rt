// The constants of the types, held to what document 01 says they are.
ghost use Rattle.std.specs.Prelude.{◌≡◌};
ghost use Rattle.counts.specs.Constants.{said_constants, ends, named_epochs};

use crate::{Epoch, TaiTime};

#[derive(Clone, Copy)]
pub struct Constants {
    pub start: TaiTime,
    pub earliest: TaiTime,
    pub latest: TaiTime,
    pub monotonic: Epoch,
    pub gps: Epoch,
    pub gst: Epoch,
    pub bdt: Epoch,
    pub tai1958: Epoch,
    pub tai1972: Epoch,
}

pub fn all_constants() -> Constants
    ensures { said_constants result ≡ (ends, named_epochs) }
{
    Constants {
        start: TaiTime::EPOCH,
        earliest: TaiTime::MIN,
        latest: TaiTime::MAX,
        monotonic: Epoch::MONOTONIC_TIME,
        gps: Epoch::GPS_TIME,
        gst: Epoch::GST_TIME,
        bdt: Epoch::BDT_TIME,
        tai1958: Epoch::TAI_1958_TIME,
        tai1972: Epoch::TAI_1972_TIME,
    }
}
