// The readings of document 01 that are run, as document 02 amends them, want of room, and the constants: a line for each, held to the documents' answer in the file stdout.
#![tactic(auto)]

use answers::put_refusal;
use counts::{Duration, Epoch, LeapOffset, TaiTime, UnixSeconds};
use errors::Refusal;
use texts::Writer;

fn write(rt: &impl Print, text: &[u8]) {
    let _ = rt.write_all(text);
}

fn write_front(rt: &impl Print, line: &[u8], n: usize) {
    if n <= line.len() {
        write(rt, &line[..n]);
    }
}

fn refused(rt: &impl Print, r: Refusal) {
    let mut line = [0u8; 128];
    let mut writer = Writer::new(&mut line);
    put_refusal(&mut writer, r);
    let n = writer.at;
    write_front(rt, &line, n);
    write(rt, b"\n");
}

fn show_in(rt: &impl Print, t: TaiTime, epoch: Epoch, precision: Option<usize>, line: &mut [u8]) {
    match printer::display(t, epoch, precision, line, 0) {
        Ok(n) => {
            write_front(rt, line, n);
            write(rt, b"\n");
        }
        Err(e) => refused(rt, e.into()),
    }
}

fn show_over(rt: &impl Print, t: TaiTime, epoch: Epoch, precision: Option<usize>) {
    let mut line = [0u8; 40];
    show_in(rt, t, epoch, precision, &mut line);
}

// A timestamp as its text over epoch 0, which tells its seconds and nanoseconds.
fn show(rt: &impl Print, t: TaiTime, precision: Option<usize>) {
    show_over(rt, t, Epoch(0), precision);
}

fn told<E: Into<Refusal>>(rt: &impl Print, answer: Result<TaiTime, E>) {
    match answer {
        Ok(t) => show(rt, t, None),
        Err(e) => refused(rt, e.into()),
    }
}

fn unix(rt: &impl Print, secs: i64, nanos: u32, leap: i64) {
    told(
        rt,
        TaiTime::try_from_unix_timestamp(Epoch(0), UnixSeconds(secs), nanos, LeapOffset(leap)),
    );
}

fn moved(rt: &impl Print, old: i64, new: i64, secs: i64) {
    told(
        rt,
        TaiTime { secs, nanos: 0 }.to_tai_time(Epoch(old), Epoch(new)),
    );
}

fn read(rt: &impl Print, text: &[u8]) {
    told(rt, reader::from_str(text, Epoch(0)));
}

// A line with one byte fewer than the text has, and one with just as many.
fn room(rt: &impl Print) {
    let mut fewer = [0u8; 18];
    show_in(rt, TaiTime::EPOCH, Epoch(0), None, &mut fewer);
    let mut enough = [0u8; 19];
    show_in(rt, TaiTime::EPOCH, Epoch(0), None, &mut enough);
}

// The ends, that the longest duration lies between them, and the start of each named epoch.
fn constants(rt: &impl Print) {
    show(rt, TaiTime::MIN, None);
    show(rt, TaiTime::MAX, None);
    told(
        rt,
        TaiTime::MIN.checked_add(Duration {
            secs: u64::MAX,
            nanos: 999_999_999,
        }),
    );
    show_over(rt, TaiTime::EPOCH, Epoch::MONOTONIC_TIME, None);
    show_over(rt, TaiTime::EPOCH, Epoch::GPS_TIME, None);
    show_over(rt, TaiTime::EPOCH, Epoch::GST_TIME, None);
    show_over(rt, TaiTime::EPOCH, Epoch::BDT_TIME, None);
    show_over(rt, TaiTime::EPOCH, Epoch::TAI_1958_TIME, None);
    show_over(rt, TaiTime::EPOCH, Epoch::TAI_1972_TIME, None);
}

fn main(rt: HostRuntime) {
    unix(&rt, 0, u32::MAX, 0);
    unix(&rt, i64::MAX, 1_000_000_000, -1);
    moved(&rt, i64::MIN, 1, 5);
    read(&rt, b"2020-+5-01T00:00:00");
    read(&rt, b"++2020-01-01 00:00:00");
    read(&rt, b"");
    read(&rt, b"2020-1");
    read(&rt, b"2020-01");
    read(&rt, b"2020-13-01 00:00:0");
    read(&rt, b"--2020-01-01");
    read(&rt, b"2020-01-01 00:00:00.");
    read(&rt, b"2020-01-01 00:00:00.0000000001");
    read(&rt, b"2020-01-01 00:00:00.0000000001x");
    read(&rt, b"2020-01-01 00:00:60");
    read(&rt, b"2147483648-01-01 00:00:00");
    // Year -2147483648 by fields.
    told(
        &rt,
        TaiTime::try_from_date_time(Epoch(0), i32::MIN, 1, 1, 0, 0, 0, 0),
    );
    read(&rt, b"-2147483648-01-01 00:00:00");
    let fraction = TaiTime {
        secs: 0,
        nanos: 123_450_000,
    };
    show(&rt, fraction, None);
    show(&rt, fraction, Some(2));
    show(&rt, fraction, Some(20));
    show(&rt, TaiTime::EPOCH, Some(3));
    room(&rt);
    constants(&rt);
}
