//! The bytes of a frame, in room that the caller keeps: a frame is large, and isn't made anew for each that is sent.
ghost use Rattle.std.specs.Prelude.{◌≡◌, ◌<◌, ◌≤◌, length};
ghost use Rattle.relay_settings.specs.Settings.{plain_goose};
ghost use Rattle.goose_publish.specs.GooseFrame.{time_bytes, values_bytes, fields_bytes, frame_bytes};

use crate::points::{Points, Send};
use crate::put::{boolean, head, number, quality, text, word};
use crate::tags;
use arrayvec::ArrayVec;
use relay_num::put_bytes;
use relay_settings::{Common, GooseSettings};

/// Room for a frame, and for its parts while it is made.
#[derive(Drop)]
pub struct FrameRoom {
    values: ArrayVec<u8, 1024>,
    fields: ArrayVec<u8, 1024>,
    pdu: ArrayVec<u8, 1024>,
    /// The frame that was made last.
    pub bytes: ArrayVec<u8, 1024>,
}

impl FrameRoom {
    /// Room in which no frame was made.
    pub fn new() -> FrameRoom {
        FrameRoom {
            values: ArrayVec::new(),
            fields: ArrayVec::new(),
            pdu: ArrayVec::new(),
            bytes: ArrayVec::new(),
        }
    }
}

/// The second and the fraction of a second at which a sample lies, and the time's quality: ten bits of the
/// fraction are valid.
fn time_bytes(common: &Common, number: u64) -> [u8; 8]
    requires { (1000 ≤ common.now.rate) × (common.now.rate ≤ 4800) }
    ensures { result ≡ time_bytes common.now number }
{
    let rate = u64::from(common.rate);
    let second = ((u64::from(common.start) + number / rate) % (1 << 32)) as u32;
    let fraction = (((number % rate) << 24) / rate) as u32;
    let [s0, s1, s2, s3] = second.to_be_bytes();
    let [_, f0, f1, f2] = fraction.to_be_bytes();
    [s0, s1, s2, s3, f0, f1, f2, 0x0A]
}

/// The values of the data set, each but the last with its quality, in place of what was written. A trip that stands stays good where samples
/// are missing.
#[tactic(auto, unfolding(crate::specs::GooseFrame::values_bytes))]
fn put_values(out: &mut ArrayVec<u8, 1024>, points: &Points)
    ensures bytes { out.new.items ≡ values_bytes points.now }
    ensures long { length out.new.items ≤ 41 }
{
    out.clear();
    boolean(out, tags::BOOLEAN, points.trip);
    quality(out, points.ready | points.trip);
    boolean(out, tags::BOOLEAN, points.start);
    quality(out, points.ready);
    boolean(out, tags::BOOLEAN, points.swing);
    quality(out, points.ready);
    boolean(out, tags::BOOLEAN, points.fuse);
    quality(out, points.ready);
    number(out, tags::UNSIGNED, u32::from(points.zones));
}

/// The fields of the PDU, of which the last holds `values`, in place of what was written.
#[tactic(auto, unfolding(crate::specs::GooseFrame::fields_bytes))]
fn put_fields(
    out: &mut ArrayVec<u8, 1024>,
    common: &Common,
    goose: &GooseSettings,
    send: &Send,
    values: &[u8],
)
    requires rate { (1000 ≤ common.now.rate) × (common.now.rate ≤ 4800) }
    requires values { values.now ≡ values_bytes send.now.points }
    requires short { length values.now ≤ 41 }
    ensures bytes { out.new.items ≡ fields_bytes common.now (plain_goose goose.now) send.now }
    ensures long { length out.new.items ≤ 600 }
{
    out.clear();
    text(out, tags::GOCB_REF, goose.gocb_ref.as_slice());
    number(out, tags::TIME_TO_LIVE, send.live_ms);
    text(out, tags::DAT_SET, goose.dat_set.as_slice());
    text(out, tags::GO_ID, goose.go_id.as_slice());
    text(out, tags::TIME, &time_bytes(common, send.change));
    number(out, tags::STATE_NUMBER, send.state);
    number(out, tags::SEQUENCE_NUMBER, send.sequence);
    boolean(out, tags::SIMULATION, false);
    number(out, tags::CONF_REV, goose.conf_rev);
    boolean(out, tags::NEEDS_COMMISSIONING, false);
    number(out, tags::ENTRY_COUNT, 9);
    head(out, tags::ALL_DATA, values.len());
    put_bytes(out, values);
}

/// Makes the whole frame, in place of the one that was made last.
#[tactic(auto, unfolding(crate::specs::GooseFrame::frame_bytes))]
pub fn put_frame(room: &mut FrameRoom, common: &Common, goose: &GooseSettings, send: &Send)
    requires rate { (1000 ≤ common.now.rate) × (common.now.rate ≤ 4800) }
    requires vlan_priority { goose.now.vlan_priority ≤ 7 }
    requires vlan_id { goose.now.vlan_id ≤ 4095 }
    ensures bytes { room.new.bytes.items ≡ frame_bytes common.now (plain_goose goose.now) send.now }
    ensures long { length room.new.bytes.items ≤ 640 }
    ensures fields { length (fields_bytes common.now (plain_goose goose.now) send.now) ≤ 600 }
    ensures addresses { (length goose.now.dst ≡ 6) × (length goose.now.src ≡ 6) }
{
    put_values(&mut room.values, &send.points);
    put_fields(
        &mut room.fields,
        common,
        goose,
        send,
        room.values.as_slice(),
    );
    let pdu = &mut room.pdu;
    pdu.clear();
    head(pdu, tags::GOOSE_PDU, room.fields.len());
    put_bytes(pdu, room.fields.as_slice());
    let out = &mut room.bytes;
    out.clear();
    put_bytes(out, &goose.dst);
    put_bytes(out, &goose.src);
    word(out, tags::VIRTUAL_NETWORK);
    let priority = u16::from(goose.vlan_priority);
    word(out, priority * 8192 + goose.vlan_id);
    word(out, tags::GOOSE);
    word(out, goose.appid);
    word(out, (pdu.len() + 8) as u16);
    word(out, 0);
    word(out, 0);
    put_bytes(out, pdu.as_slice());
}
