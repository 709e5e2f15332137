//! A plain program that sums the window anew, beside the front that slides.
ghost use Rattle.std.specs.Prelude.{◌≡◌, ◌<◌};

use line_relay::{Front, Step};
use relay_num::{Cx, Steps, open_steps, wave};
use relay_settings::Mimic;
use row_inputs::{SETTINGS, Signal, Span, data_of, sample_set, settings_of};
use settings_read::read_settings;
use std::alloc::Global;
use std::marker::Brand;
use std::sync::ledger::{Blank, Ledger};
use std::test::Fail;

/// A taken sample.
#[derive(Clone, Copy, Drop)]
struct Taken {
    number: u64,
    values: [i64; 8],
    good: bool,
}

/// The value of a channel at a place of the samples; IN and UN aren't used.
fn value(samples: &[Taken], place: usize, channel: usize) -> i64 {
    let Some(taken) = samples.get(place) else {
        return 0;
    };
    let [ia, ib, ic, _, ua, ub, uc, _] = taken.values;
    match channel {
        0 => ia,
        1 => ib,
        2 => ic,
        4 => ua,
        5 => ub,
        6 => uc,
        _ => 0,
    }
}

/// The filtered value of a channel at a place of the samples.
fn filtered(samples: &[Taken], mimic: Option<Mimic>, place: usize, channel: usize) -> i64 {
    match mimic {
        Some(mimic) => {
            let now = value(samples, place, channel).wrapping_mul(mimic.a);
            let before = value(samples, place.wrapping_sub(1), channel).wrapping_mul(mimic.b);
            (now.wrapping_sub(before) >> 10).clamp(-268_435_455, 268_435_455)
        }
        None => value(samples, place, channel),
    }
}

/// The phasor of a channel over the last 96 of the samples.
fn phasor(samples: &[Taken], mimic: Option<Mimic>, channel: usize) -> Cx {
    let mut re: i64 = 0;
    let mut im: i64 = 0;
    for place in samples.len().saturating_sub(96)..samples.len() {
        let number = samples[place].number;
        let (cosine, sine) = wave(96, (number % 96) as u32);
        let value = filtered(samples, mimic, place, channel);
        re = re.wrapping_add(value.wrapping_mul(cosine));
        im = im.wrapping_sub(value.wrapping_mul(sine));
    }
    Cx {
        re: re >> 19,
        im: im >> 19,
    }
}

/// Whether the last samples, as many as the filter asks for, are good and none is missing among them.
fn is_ready(samples: &[Taken], mimic: Option<Mimic>) -> bool {
    let needed: usize = if mimic.is_some() { 97 } else { 96 };
    let Some(first) = samples.len().checked_sub(needed) else {
        return false;
    };
    let mut next = None;
    for taken in &samples[first..] {
        let number = taken.number;
        if !taken.good || next.is_some_and(|next| next != number) {
            return false;
        }
        next = Some(number.wrapping_add(1));
    }
    true
}

/// The phasors at the newest sample, summed anew.
fn phasors(samples: &[Taken], mimic: Option<Mimic>) -> Option<[Cx; 8]> {
    if !is_ready(samples, mimic) {
        return None;
    }
    let mut all = [Cx { re: 0, im: 0 }; 8];
    for channel in 0..8 {
        all[channel] = phasor(samples, mimic, channel);
    }
    Some(all)
}

/// The front of the line of these settings.
fn front_of(alloc: Global, text: &[u8]) -> Result<Option<Front>, Fail> {
    let Ok(settings) = read_settings(alloc, text) else {
        return Ok(None);
    };
    match settings.lines.as_slice() {
        [line] => Ok(Some(Front::new(alloc, &settings.common, line)?)),
        _ => Ok(None),
    }
}

/// At how many samples there were phasors, and at how many the front and the plain program differed.
#[derive(Clone, Copy, PartialEq, Eq, Debug, Drop)]
struct Compared {
    ready: u32,
    differ: u32,
}

/// Hands the front the sample sets of these spans, and sums each window anew beside it.
fn compare<L: Ledger>(
    alloc: Global,
    text: &[u8],
    mimic: Option<Mimic>,
    spans: &[Span],
    blank: Blank,
) -> Result<Compared, Fail>
    requires name { blank.name ≡ L.name }
    requires parts { blank.parts ≡ L.parts }
    requires shares { 0 < blank.parts }
{
    let mut compared = Compared {
        ready: 0,
        differ: 0,
    };
    let Some(mut front) = front_of(alloc, text)? else {
        return Ok(compared);
    };
    let mut steps = open_steps::<L>(blank);
    let mut samples = Vec::new(alloc);
    for (from, to, signal) in spans {
        for counter in *from..*to {
            let data = data_of(*signal, counter);
            let step = match hear(&mut front, counter, &data, &mut steps) {
                Some(step) => step,
                None => return Ok(compared),
            };
            let mut want = None;
            if let (Some(sample), Some(number)) = (step.sample, front.last()) {
                let values = sample.values;
                let good = sample.good;
                samples.push(Taken {
                    number,
                    values,
                    good,
                })?;
                want = phasors(&samples, mimic);
            }
            if step.phasors != want {
                compared.differ = compared.differ.wrapping_add(1);
            }
            if want.is_some() {
                compared.ready = compared.ready.wrapping_add(1);
            }
        }
    }
    Ok(compared)
}

fn hear<L: Ledger>(
    front: &mut Front,
    counter: u16,
    data: &[u8; 64],
    steps: &mut Steps<L>,
) -> Option<Step> {
    if front.last().unwrap_or(0) >= 1 << 60 {
        return None;
    }
    Some(front.take(&sample_set(b"MU01", counter, data), steps))
}

/// Over the end of a second, with a bad sample, a repeated one and a gap.
const SPANS: [Span; 7] = [
    (4700, 4800, Signal::Noise),
    (0, 150, Signal::Noise),
    (150, 151, Signal::BadQuality),
    (151, 280, Signal::Fault),
    (279, 280, Signal::Fault),
    (280, 300, Signal::Healthy),
    (303, 500, Signal::Noise),
];

#[test]
fn sums_anew_agree_with_the_front(rt: HostRuntime) -> Result<(), Fail> {
    let alloc = rt.alloc();
    let plain = compare::<Brand>(alloc, SETTINGS.as_bytes(), None, &SPANS, Blank::new(1))?;
    assert_eq!(rt; plain.ready, 155 + 54 + 102);
    assert_eq!(rt; plain.differ, 0);
    let mimic = "[line.mimic]\na = 2048\nb = 1024\n\n[line.goose]";
    let text = settings_of(alloc, "", &[("[line.goose]", mimic)])?;
    let mimic = Some(Mimic { a: 2048, b: 1024 });
    let filtered = compare::<Brand>(alloc, text.as_bytes(), mimic, &SPANS, Blank::new(1))?;
    assert_eq!(rt; filtered.ready, 154 + 53 + 101);
    assert_eq!(rt; filtered.differ, 0);
    Ok(())
}
