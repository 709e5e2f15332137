//! Frames of sampled values with the answers that the formats give.
ghost use Rattle.std.specs.Prelude.{◌≡◌, ◌<◌, ◌≤◌, length, min};

use arrayvec::ArrayVec;
use relay_num::open_steps;
use row_inputs::{Form, PAIR, SAMPLE_FRAME, SEVENTEEN, SIXTEEN, frame_of_zeros};
use std::marker::Brand;
use std::process::Abort;
use std::sync::ledger::{Blank, Ledger};
use std::test::Fail;
use sv_frame::{Asdu, Channel, Reason, SvRead, read};

/// Twelve empty fields of a tag that no ASDU knows.
const UNKNOWN_FIELDS: [u8; 24] = [
    0x8a, 0, 0x8a, 0, 0x8a, 0, 0x8a, 0, 0x8a, 0, 0x8a, 0, 0x8a, 0, 0x8a, 0, 0x8a, 0, 0x8a, 0, 0x8a,
    0, 0x8a, 0,
];

/// Bytes of the sample frame replaced, then bytes put in before a place, then the captured length,
/// to which the frame is cut or padded with zeros.
type Change = (
    &'static [(usize, u8)],
    usize,
    &'static [u8],
    u32,
    &'static str,
);

static CHANGES: [Change; 34] = [
    (&[], 0, &[], 116, "read"),
    // Captured shorter or longer.
    (&[], 0, &[], 100, "length"),
    (&[], 0, &[], 20, "header"),
    (&[], 0, &[], 14, "header"),
    (&[], 0, &[], 13, "other"),
    (&[], 0, &[], 126, "read"),
    (&[], 0, &[], 3000, "long"),
    // The EtherType, and a tag of a virtual network before it.
    (&[(12, 0x08), (13, 0x00)], 0, &[], 116, "other"),
    (&[(12, 0x08), (13, 0x00)], 0, &[], 60000, "other"),
    (&[], 12, &[0x81, 0x00, 0x80, 0x00], 120, "read"),
    (&[], 12, &[0x81, 0x00, 0x80, 0x00], 130, "read"),
    (&[], 12, &[0x81, 0x00, 0x80, 0x00], 17, "other"),
    // Length.
    (&[(17, 0x07)], 0, &[], 116, "length"),
    (&[(17, 0x67)], 0, &[], 116, "length"),
    (&[(17, 0x65)], 0, &[], 116, "pdu"),
    // The PDU.
    (&[(22, 0x61)], 0, &[], 116, "pdu"),
    (&[(23, 0x80)], 0, &[], 116, "pdu"),
    (&[(23, 0x85)], 0, &[], 116, "pdu"),
    (&[(25, 0x00)], 0, &[], 116, "pdu"),
    (
        &[(17, 0x6a), (23, 0x84)],
        24,
        &[0x00, 0x00, 0x00, 0x5c],
        120,
        "read",
    ),
    // The count of ASDUs and their sequence.
    (&[(26, 0x00)], 0, &[], 116, "count"),
    (&[(26, 0x02)], 0, &[], 116, "count"),
    (&[(29, 0x31)], 0, &[], 116, "count"),
    (&[(30, 0x54)], 0, &[], 116, "count"),
    // The ASDU.
    (&[(31, 0x81)], 0, &[], 116, "asdu"),
    (&[(32, 0x05)], 0, &[], 116, "asdu"),
    (&[(37, 0x8a)], 0, &[], 116, "asdu"),
    (&[(37, 0x9f)], 0, &[], 116, "asdu"),
    (&[(41, 0x82)], 0, &[], 116, "asdu"),
    (&[(47, 0x82)], 0, &[], 116, "asdu"),
    (&[(48, 0x02)], 0, &[], 116, "asdu"),
    (&[(51, 0x3f)], 0, &[], 116, "asdu"),
    // Eleven and twelve further fields, so that it has sixteen and seventeen.
    (
        &[(17, 0x7c), (23, 0x72), (28, 0x6d), (30, 0x6b)],
        116,
        &UNKNOWN_FIELDS,
        138,
        "read",
    ),
    (
        &[(17, 0x7e), (23, 0x74), (28, 0x6f), (30, 0x6d)],
        116,
        &UNKNOWN_FIELDS,
        140,
        "asdu",
    ),
];

fn word(answer: &SvRead) -> &'static str {
    match answer {
        SvRead::Other => "other",
        SvRead::Bad(Reason::Header) => "header",
        SvRead::Bad(Reason::Length) => "length",
        SvRead::Bad(Reason::Long) => "long",
        SvRead::Bad(Reason::Pdu) => "pdu",
        SvRead::Bad(Reason::Count) => "count",
        SvRead::Bad(Reason::Asdu) => "asdu",
        SvRead::Pdu(_) => "read",
    }
}

fn answer<'a, L: Ledger>(frame: &'a [u8], captured: u32, blank: Blank) -> SvRead<'a>
    requires name { blank.name ≡ L.name }
    requires parts { blank.parts ≡ L.parts }
    requires shares { 0 < blank.parts }
    requires front { length frame.now ≡ min captured 2048 }
{
    read(frame, captured, &mut open_steps::<L>(blank))
}

fn changed(change: &Change) -> ArrayVec<u8, 2048> {
    let (replaced, place, put_in, captured, _) = *change;
    let mut whole = SAMPLE_FRAME;
    for (at, byte) in replaced {
        if *at < whole.len() {
            whole[*at] = *byte;
        }
    }
    let (front, back) = whole.split_at(place.min(whole.len()));
    let mut frame = ArrayVec::new();
    let _ = frame.try_extend_from_slice(front);
    let _ = frame.try_extend_from_slice(put_in);
    let _ = frame.try_extend_from_slice(back);
    frame.truncate(captured as usize);
    for _ in frame.len()..(captured as usize).min(2048) {
        let _ = frame.try_push(0);
    }
    frame
}

#[test]
fn changed_frames_fail_in_their_layer(rt: HostRuntime) {
    for change in &CHANGES {
        let frame = changed(change);
        let captured = change.3;
        assert!(rt; frame.len() == (captured as usize).min(2048));
        let said = answer::<Brand>(frame.as_slice(), captured, Blank::new(1));
        assert_eq!(rt; word(&said), change.4, "{:?} captured {captured}", change.0);
    }
}

/// Forms of frames, each with so many ASDUs.
static SEQUENCES: [(&'static Form, &'static str); 3] = [
    (&PAIR, "read"),
    (&SIXTEEN, "read"),
    (&SEVENTEEN, "count"),
];

/// An ASDU of a frame of zeros, at this place of its sequence.
fn expect_zeros(rt: &impl Abort, asdu: &Asdu, place: usize) {
    assert_eq!(rt; asdu.sv_id, b"MU01".as_slice());
    assert_eq!(rt; asdu.counter as usize, place);
    assert_eq!(rt; asdu.conf_rev, 1);
    assert_eq!(rt; asdu.synch, 2);
    assert_eq!(rt;
        asdu.channels(),
        Some([Channel {
            value: 0,
            quality: 0
        }; 8])
    );
}

#[test]
fn each_asdu_of_a_frame_is_read(rt: HostRuntime) -> Result<(), Fail> {
    for (form, want) in &SEQUENCES {
        let frame = frame_of_zeros(rt.alloc(), form, 0)?;
        assert!(rt; frame.len() <= 2048);
        let said = answer::<Brand>(frame.as_slice(), frame.len() as u32, Blank::new(1));
        assert_eq!(rt; word(&said), *want, "{} ASDUs", form.0);
        let SvRead::Pdu(asdus) = said else {
            continue;
        };
        assert_eq!(rt; asdus.len(), form.0 as usize);
        for (place, asdu) in asdus.iter().enumerate() {
            expect_zeros(&rt, asdu, place);
        }
    }
    Ok(())
}

fn with_data(samples: &[u8]) -> Asdu<'_>
    requires { length samples.now ≤ 2048 }
{
    Asdu {
        sv_id: &[],
        counter: 0,
        conf_rev: 0,
        synch: 0,
        samples,
    }
}

#[test]
fn channels_are_signed_values_with_quality(rt: HostRuntime) {
    let mut samples = [0; 64];
    samples[..4].copy_from_slice(&[0xff, 0xff, 0xff, 0xfe]);
    samples[28..32].copy_from_slice(&[0x00, 0x00, 0x20, 0x00]);
    samples[56..60].copy_from_slice(&[0x7f, 0xff, 0xff, 0xff]);
    let mut want = [Channel {
        value: 0,
        quality: 0,
    }; 8];
    want[0].value = -2;
    want[3].quality = 1 << 13;
    want[7].value = 2147483647;
    assert_eq!(rt; with_data(&samples).channels(), Some(want));
    assert_eq!(rt; with_data(&samples[..60]).channels(), None);
}
