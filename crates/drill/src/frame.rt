//! The bytes of a frame.
ghost use Rattle.std.specs.Prelude.{◌≡◌, ◌+◌, ◌<◌, ◌≤◌, ◌++◌, length};
ghost use Rattle.ber_fields.specs.Written.{field};
ghost use Rattle.drill.specs.DrillFrame.{set_fields, frame_bytes};

use crate::signal::put_sample;
use crate::slot::Slot;
use arrayvec::ArrayVec;
use ber_fields::{put_head, put_text};
use relay_num::put_bytes;

/// Destination, source, EtherType, APPID, Length and the two reserved words.
static FRONT: [u8; 22] = [
    0x01, 0x0C, 0xCD, 0x04, 0x00, 0x01, 0x02, 0x00, 0x00, 0x00, 0x00, 0x01, 0x88, 0xBA, 0x40, 0x00,
    0x00, 191, 0x00, 0x00, 0x00, 0x00,
];

/// Appends one sample set: svID, smpCnt, confRev, smpSynch and the sample data.
#[tactic(auto, unfolding(crate::specs::DrillFrame::set_fields))]
fn put_set(out: &mut ArrayVec<u8, 1024>, slot: &Slot, counter: u16)
    requires { length out.old.items + 87 ≤ 1024 }
    ensures bytes { out.new.items ≡ out.old.items ++ field 0x30 (set_fields slot.now counter) }
    ensures long { length out.new.items ≡ length out.old.items + 87 }
{
    put_head(out, 0x30, 85);
    put_text(out, 0x80, slot.line.sv_id());
    put_text(out, 0x82, &counter.to_be_bytes());
    put_text(out, 0x83, &1u32.to_be_bytes());
    put_text(out, 0x85, &[2]);
    put_head(out, 0x87, 64);
    put_sample(out, slot.kind, counter);
}

/// Appends the frame.
#[tactic(auto, unfolding(crate::specs::DrillFrame::frame_bytes))]
pub fn put_frame(out: &mut ArrayVec<u8, 1024>, slot: &Slot)
    requires room { length out.old.items + 205 ≤ 1024 }
    requires counter { slot.now.counter < 4800 }
    ensures { out.new.items ≡ out.old.items ++ frame_bytes slot.now }
{
    put_bytes(out, &FRONT);
    put_head(out, 0x60, 180);
    put_text(out, 0x80, &[2]);
    put_head(out, 0xA2, 174);
    put_set(out, slot, slot.counter);
    put_set(out, slot, slot.counter + 1);
}
