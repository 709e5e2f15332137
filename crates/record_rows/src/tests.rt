//! A ground fault that trips at the number 1525, and its record.
ghost use Rattle.std.specs.Prelude.{◌≡◌, ◌<◌};

use comtrade_write::{PairError, PairSample, Recorder, read_pair};
use relay_num::{Steps, open_steps};
use row_inputs::{CONFIG, Signal, ZONE, changed, channels_of, data_set, sample_set, settings_of};
use settings_read::read_settings;
use std::alloc::{AllocError, Global};
use std::marker::Brand;
use std::sync::ledger::{Blank, Ledger};
use std::test::Fail;

/// Which sample sets don't come, and at which number the quality of IA is bad.
struct Row {
    missing_from: u16,
    missing_to: u16,
    bad: u16,
}

/// The data set: healthy before the number 1464, and from then on a ground fault. IA may be bad.
fn data_of(counter: u16, bad: bool) -> [u8; 64] {
    let signal = if counter < 1464 {
        Signal::Healthy
    } else {
        Signal::Fault
    };
    let mut channels = channels_of(signal, counter);
    channels[0].1 = u32::from(bad);
    data_set(&channels)
}

/// Hears the sample set with this counter, and one of another line.
fn hear_one<L: Ledger>(recorder: &mut Recorder, steps: &mut Steps<L>, counter: u16, bad: bool) {
    let data = data_of(counter, bad);
    for sv_id in [b"MU01", b"MU02"] {
        if recorder.heard() < 1 << 40 {
            recorder.hear(&sample_set(sv_id, counter, &data), steps);
        }
    }
}

/// A recorder of the k-th trip of the line named `L,1`, after the sample sets with the counters from 0 to 1999.
fn recorder_of<L: Ledger>(alloc: Global, row: &Row, k: u32, blank: Blank) -> Result<Recorder, Fail>
    requires name { blank.name ≡ L.name }
    requires parts { blank.parts ≡ L.parts }
    requires shares { 0 < blank.parts }
{
    let text = settings_of(alloc, ZONE, &[("\"L1\"", "\"L,1\"")])?;
    let settings = read_settings(alloc, text.as_bytes())?;
    if settings.lines.is_empty() || k < 1 || k > 1_000_000 {
        return Err(Fail::from("no such line or trip"));
    }
    let mut steps = open_steps::<L>(blank);
    let mut recorder = Recorder::new(alloc, &settings, 0, k)?;
    for counter in 0..2000 {
        if counter < row.missing_from || counter >= row.missing_to {
            hear_one(&mut recorder, &mut steps, counter, counter == row.bad);
        }
    }
    Ok(recorder)
}

/// The configuration, all its lines.
fn config_of(alloc: Global, recorder: &Recorder) -> Result<Vec<u8>, AllocError> {
    let mut text = Vec::new(alloc);
    if recorder.count() > 0 {
        for i in 1..18 {
            text.extend_from_slice(recorder.config_line(i).as_slice())?;
        }
    }
    Ok(text)
}

/// The data, all its lines.
fn all_data_of(alloc: Global, recorder: &Recorder) -> Result<Vec<u8>, AllocError> {
    let mut text = Vec::new(alloc);
    let count = recorder.count();
    for i in 0..count {
        text.extend_from_slice(recorder.data_line(i + 1).as_slice())?;
    }
    Ok(text)
}

/// The i-th line of the data, if there is one.
fn data_of_line(alloc: Global, recorder: &Recorder, i: usize) -> Result<Vec<u8>, AllocError> {
    let mut text = Vec::new(alloc);
    if i >= 1 && i <= recorder.count() {
        text.extend_from_slice(recorder.data_line(i).as_slice())?;
    }
    Ok(text)
}

/// A sum over all bytes of the data: each time 31 times the sum before, modulo 2^32.
fn check_sum(recorder: &Recorder) -> u32 {
    let mut sum: u32 = 0;
    let count = recorder.count();
    for i in 0..count {
        for byte in recorder.data_line(i + 1).as_slice() {
            sum = sum.wrapping_mul(31).wrapping_add(u32::from(*byte));
        }
    }
    sum
}

const WHOLE: Row = Row {
    missing_from: 0,
    missing_to: 0,
    bad: 5000,
};

const BROKEN: Row = Row {
    missing_from: 1700,
    missing_to: 1710,
    bad: 1800,
};

#[test]
fn ground_fault_is_recorded(rt: HostRuntime) -> Result<(), Fail> {
    let recorder = recorder_of::<Brand>(rt.alloc(), &WHOLE, 1, Blank::new(1))?;
    assert_eq!(rt; recorder.heard(), 4000);
    assert_eq!(rt; recorder.trips(), 1);
    assert_eq!(rt; recorder.count(), 577);
    let config = config_of(rt.alloc(), &recorder)?;
    let want = changed(rt.alloc(), CONFIG, &[("L1,", "L_1,")])?;
    assert_eq!(rt; config.as_slice(), want.as_bytes());
    let lines: [(usize, &[u8]); 4] = [
        (1, b"1,0,0,0,0,6159000,-7757500,1598000,1,0\r\n"),
        (
            192,
            b"192,39791,-2896250,0,0,2896250,-7913000,2120000,1,0\r\n",
        ),
        (
            193,
            b"193,40000,-2700750,0,0,3079500,-7757500,1598000,1,1\r\n",
        ),
        (
            577,
            b"577,120000,-2700750,0,0,3079500,-7757500,1598000,1,1\r\n\x1a",
        ),
    ];
    for (i, line) in lines {
        let text = data_of_line(rt.alloc(), &recorder, i)?;
        assert_eq!(rt; text.as_slice(), line);
    }
    assert_eq!(rt; check_sum(&recorder), 1_619_902_838);
    Ok(())
}

#[test]
fn missing_and_bad_samples_show(rt: HostRuntime) -> Result<(), Fail> {
    let recorder = recorder_of::<Brand>(rt.alloc(), &BROKEN, 1, Blank::new(1))?;
    assert_eq!(rt; recorder.count(), 567);
    let lines: [(usize, &[u8]); 3] = [
        (
            367,
            b"367,76250,-3878750,0,0,-1316500,-5401500,8034500,1,1\r\n",
        ),
        (
            368,
            b"368,78541,-3784250,0,0,1567500,-8122000,4987000,1,1\r\n",
        ),
        (458, b"458,97291,0,0,0,0,0,0,0,1\r\n"),
    ];
    for (i, line) in lines {
        let text = data_of_line(rt.alloc(), &recorder, i)?;
        assert_eq!(rt; text.as_slice(), line);
    }
    assert_eq!(rt; check_sum(&recorder), 2_607_833_297);
    Ok(())
}

#[test]
fn second_trip_is_not_there(rt: HostRuntime) -> Result<(), Fail> {
    let recorder = recorder_of::<Brand>(rt.alloc(), &WHOLE, 2, Blank::new(1))?;
    assert_eq!(rt; recorder.trips(), 1);
    assert_eq!(rt; recorder.count(), 0);
    Ok(())
}

/// The first and the 193rd line of the data, as they are read: the trip stands from the 193rd on.
const FIRST: PairSample = PairSample {
    micros: 0,
    values: [0, 0, 0, 6_159_000, -7_757_500, 1_598_000],
    good: true,
    trip: false,
};

const TRIPPED: PairSample = PairSample {
    micros: 40_000,
    values: [-2_700_750, 0, 0, 3_079_500, -7_757_500, 1_598_000],
    good: true,
    trip: true,
};

#[test]
fn record_reads_back(rt: HostRuntime) -> Result<(), Fail> {
    let recorder = recorder_of::<Brand>(rt.alloc(), &WHOLE, 1, Blank::new(1))?;
    let config = config_of(rt.alloc(), &recorder)?;
    let mut data = all_data_of(rt.alloc(), &recorder)?;
    let Ok(pair) = read_pair(rt.alloc(), config.as_slice(), data.as_slice()) else {
        return Err(Fail::from("the pair isn't read"));
    };
    assert_eq!(rt; pair.rate, 4800);
    assert_eq!(rt; pair.samples.len(), 577);
    assert_eq!(rt; pair.samples.first(), Some(&FIRST));
    assert_eq!(rt; pair.samples.get(192), Some(&TRIPPED));
    assert_eq!(rt; data.pop(), Some(0x1A));
    let cut = read_pair(rt.alloc(), config.as_slice(), data.as_slice());
    assert_eq!(rt; cut.err(), Some(PairError::Refused));
    Ok(())
}
