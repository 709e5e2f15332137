//! Rows of takes with the frames that are sent, and the bytes of two frames.
ghost use Rattle.std.specs.Prelude.{◌≡◌, ◌≤◌, length};
ghost use Rattle.relay_settings.specs.Ranges.{IsCommon, IsGoose};

use super::*;
use arrayvec::ArrayVec;
use relay_settings::{Common, GooseSettings};
use std::process::Abort;

const QUIET: Points = Points {
    trip: false,
    start: false,
    swing: false,
    fuse: false,
    zones: 0,
    ready: false,
};

const TRIPPED: Points = Points {
    trip: true,
    start: true,
    swing: false,
    fuse: false,
    zones: 1,
    ready: true,
};

/// The frame of a first sample with the number 0.
const FIRST: [u8; 128] = [
    0x01, 0x0C, 0xCD, 0x01, 0x00, 0x01, 0x02, 0x00, 0x00, 0x00, 0x00, 0x02, 0x81, 0x00, 0x80, 0x00,
    0x88, 0xB8, 0x00, 0x01, 0x00, 0x6E, 0x00, 0x00, 0x00, 0x00, 0x61, 0x64, 0x80, 0x0D, 0x50, 0x31,
    0x2F, 0x4C, 0x4C, 0x4E, 0x30, 0x24, 0x47, 0x4F, 0x24, 0x47, 0x31, 0x81, 0x01, 0x0C, 0x82, 0x0B,
    0x50, 0x31, 0x2F, 0x4C, 0x4C, 0x4E, 0x30, 0x24, 0x44, 0x53, 0x31, 0x83, 0x02, 0x47, 0x31, 0x84,
    0x08, 0x65, 0x92, 0x00, 0x80, 0x00, 0x00, 0x00, 0x0A, 0x85, 0x01, 0x01, 0x86, 0x01, 0x00, 0x87,
    0x01, 0x00, 0x88, 0x01, 0x01, 0x89, 0x01, 0x00, 0x8A, 0x01, 0x09, 0xAB, 0x23, 0x83, 0x01, 0x00,
    0x84, 0x03, 0x03, 0x40, 0x00, 0x83, 0x01, 0x00, 0x84, 0x03, 0x03, 0x40, 0x00, 0x83, 0x01, 0x00,
    0x84, 0x03, 0x03, 0x40, 0x00, 0x83, 0x01, 0x00, 0x84, 0x03, 0x03, 0x40, 0x00, 0x86, 0x01, 0x00,
];

/// The frame of the third change, a trip of zone 1 at the sample 1525.
const TRIP: [u8; 128] = [
    0x01, 0x0C, 0xCD, 0x01, 0x00, 0x01, 0x02, 0x00, 0x00, 0x00, 0x00, 0x02, 0x81, 0x00, 0x80, 0x00,
    0x88, 0xB8, 0x00, 0x01, 0x00, 0x6E, 0x00, 0x00, 0x00, 0x00, 0x61, 0x64, 0x80, 0x0D, 0x50, 0x31,
    0x2F, 0x4C, 0x4C, 0x4E, 0x30, 0x24, 0x47, 0x4F, 0x24, 0x47, 0x31, 0x81, 0x01, 0x0C, 0x82, 0x0B,
    0x50, 0x31, 0x2F, 0x4C, 0x4C, 0x4E, 0x30, 0x24, 0x44, 0x53, 0x31, 0x83, 0x02, 0x47, 0x31, 0x84,
    0x08, 0x65, 0x92, 0x00, 0x80, 0x51, 0x55, 0x55, 0x0A, 0x85, 0x01, 0x03, 0x86, 0x01, 0x00, 0x87,
    0x01, 0x00, 0x88, 0x01, 0x01, 0x89, 0x01, 0x00, 0x8A, 0x01, 0x09, 0xAB, 0x23, 0x83, 0x01, 0x01,
    0x84, 0x03, 0x03, 0x00, 0x00, 0x83, 0x01, 0x01, 0x84, 0x03, 0x03, 0x00, 0x00, 0x83, 0x01, 0x00,
    0x84, 0x03, 0x03, 0x00, 0x00, 0x83, 0x01, 0x00, 0x84, 0x03, 0x03, 0x00, 0x00, 0x86, 0x01, 0x01,
];

fn text(bytes: &[u8]) -> ArrayVec<u8, 129>
    requires { length bytes.now ≤ 129 }
    ensures { result.items ≡ bytes.now }
{
    let mut copy = ArrayVec::new();
    let _ = copy.try_extend_from_slice(bytes);
    copy
}

fn common() -> Common
    ensures { IsCommon result }
{
    Common {
        rate: 4800,
        nominal: 50,
        n: 96,
        start: 1_704_067_200,
        heartbeat_ms: 1000,
    }
}

fn goose() -> GooseSettings
    ensures { IsGoose result }
{
    GooseSettings {
        dst: [0x01, 0x0C, 0xCD, 0x01, 0x00, 0x01],
        src: [0x02, 0x00, 0x00, 0x00, 0x00, 0x02],
        appid: 1,
        vlan_priority: 4,
        vlan_id: 0,
        gocb_ref: text(b"P1/LLN0$GO$G1"),
        dat_set: text(b"P1/LLN0$DS1"),
        go_id: text(b"G1"),
        conf_rev: 1,
    }
}

fn publisher() -> Publisher {
    Publisher::new(&common(), &goose())
}

#[test]
fn offsets_double_their_steps_up_to_the_heartbeat(rt: HostRuntime) {
    let rows: [(u32, u32); 9] = [
        (0, 12),
        (20, 24),
        (58, 48),
        (135, 96),
        (288, 192),
        (596, 384),
        (1210, 768),
        (2439, 1536),
        (4896, 3000),
    ];
    let mut publisher = publisher();
    let mut next = 0;
    for (due, live_ms) in rows {
        for number in next..due {
            assert!(rt; publisher.take(u64::from(number), &QUIET).is_none());
        }
        let send = publisher.take(u64::from(due), &QUIET);
        assert_eq!(rt; send.map(|s| s.live_ms), Some(live_ms));
        next = due.saturating_add(1);
    }
}

#[test]
fn a_jump_over_offsets_sends_one_frame(rt: HostRuntime) {
    let mut publisher = publisher();
    for number in 0..10 {
        assert_eq!(rt; publisher.take(number, &QUIET).is_some(), number == 0);
    }
    let send = Send {
        number: 700,
        change: 0,
        state: 1,
        sequence: 1,
        live_ms: 384,
        points: QUIET,
    };
    assert_eq!(rt; publisher.take(700, &QUIET), Some(send));
    assert_eq!(rt; publisher.take(701, &QUIET), None);
}

#[test]
fn frames_have_these_bytes(rt: HostRuntime) {
    let mut publisher = publisher();
    let first = publisher.take(0, &QUIET).unwrap_or_default();
    let bytes = publisher.frame_bytes(&first);
    assert_eq!(rt; bytes.as_slice(), FIRST.as_slice());
    let ready = Points {
        ready: true,
        ..QUIET
    };
    let second = publisher.take(95, &ready);
    assert_eq!(rt; second.map(|s| s.state), Some(2));
    let trip = publisher.take(1525, &TRIPPED).unwrap_or_default();
    let bytes = publisher.frame_bytes(&trip);
    assert_eq!(rt; bytes.as_slice(), TRIP.as_slice());
}

#[test]
fn a_live_time_of_192_has_two_bytes(rt: HostRuntime) {
    let mut publisher = publisher();
    let _ = publisher.take(0, &QUIET);
    let fifth = publisher.take(288, &QUIET).unwrap_or_default();
    let bytes = publisher.frame_bytes(&fifth);
    assert_eq!(rt; bytes.len(), 129);
    assert_eq!(rt;
        &bytes.as_slice()[43..47],
        [0x81, 0x02, 0x00, 0xC0].as_slice()
    );
}

/// The qualities of trip, start, swing and fuse.
fn qualities(rt: &impl Abort, trip: bool, ready: bool) -> [u8; 4] {
    let points = Points {
        trip,
        ready,
        ..QUIET
    };
    let send = Send {
        live_ms: 12,
        points,
        ..Send::default()
    };
    let bytes = publisher().frame_bytes(&send);
    assert_eq!(rt; bytes.len(), 128);
    let bytes = bytes.as_slice();
    [bytes[99], bytes[107], bytes[115], bytes[123]]
}

#[test]
fn a_standing_trip_is_good_where_the_sample_is_not_ready(rt: HostRuntime) {
    assert_eq!(rt; qualities(&rt, false, false), [0x40, 0x40, 0x40, 0x40]);
    assert_eq!(rt; qualities(&rt, true, false), [0, 0x40, 0x40, 0x40]);
    assert_eq!(rt; qualities(&rt, false, true), [0, 0, 0, 0]);
    assert_eq!(rt; qualities(&rt, true, true), [0, 0, 0, 0]);
}
