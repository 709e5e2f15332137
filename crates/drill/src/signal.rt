//! The samples of a line: a healthy one, and one with a fault of phase A.
ghost use Rattle.std.specs.Prelude.{◌≡◌, ◌+◌, ◌^◌, ◌<◌, ◌≤◌, ◌++◌, length};
ghost use Rattle.std.specs.Int.RustNames.{unsigned_abs};
ghost use Rattle.drill.specs.DrillSignal.{healthy, current, voltage, channel_bytes, sample_bytes};

use crate::slot::Kind;
use arrayvec::ArrayVec;
use relay_num::{put_bytes, wave};

/// The samples of a cycle.
const CYCLE: u32 = 96;

/// The quality word of a channel that is derived from others.
const DERIVED: u32 = 0x2000;

/// Appends a value and its quality word.
#[tactic(auto, unfolding(crate::specs::DrillSignal::channel_bytes))]
fn put_channel(out: &mut ArrayVec<u8, 1024>, value: i64, quality: u32)
    requires value { unsigned_abs value < 2 ^ 31 }
    requires room { length out.old.items + 8 ≤ 1024 }
    ensures bytes { out.new.items ≡ out.old.items ++ channel_bytes value quality }
    ensures long { length out.new.items ≡ length out.old.items + 8 }
{
    put_bytes(out, &(value as i32).to_be_bytes());
    put_bytes(out, &quality.to_be_bytes());
}

/// The voltage of a healthy phase at this place of its cycle.
#[tactic(auto, unfolding(crate::specs::DrillSignal::healthy))]
fn healthy(place: u32) -> i64
    requires { place < 96 }
    ensures value { result ≡ healthy place }
    ensures size { unsigned_abs result < 2 ^ 31 }
{
    let (cosine, _) = wave(CYCLE, place);
    500 * cosine
}

/// The current of phase A.
#[tactic(auto, unfolding(crate::specs::DrillSignal::current))]
fn current(is_fault: bool, place: u32) -> i64
    requires { place < 96 }
    ensures value { result ≡ current is_fault place }
    ensures size { unsigned_abs result < 2 ^ 31 }
{
    if is_fault {
        let (_, sine) = wave(CYCLE, place);
        250 * sine
    } else {
        0
    }
}

/// The voltage of phase A.
#[tactic(auto, unfolding(crate::specs::DrillSignal::voltage))]
fn voltage(is_fault: bool, place: u32) -> i64
    requires { place < 96 }
    ensures value { result ≡ voltage is_fault place }
    ensures size { unsigned_abs result < 2 ^ 31 }
{
    if is_fault {
        let (cosine, _) = wave(CYCLE, place);
        250 * cosine
    } else {
        healthy(place)
    }
}

/// Appends the sample with this counter: eight values, each with its quality word.
#[tactic(auto, unfolding(crate::specs::DrillSignal::sample_bytes))]
pub fn put_sample(out: &mut ArrayVec<u8, 1024>, kind: Kind, counter: u16)
    requires { length out.old.items + 64 ≤ 1024 }
    ensures bytes { out.new.items ≡ out.old.items ++ sample_bytes kind counter }
    ensures long { length out.new.items ≡ length out.old.items + 64 }
{
    let place = u32::from(counter) % CYCLE;
    let is_fault = kind.is_fault_at(counter);
    let current = current(is_fault, place);
    put_channel(out, current, kind.quality_at(counter)); // IA
    put_channel(out, 0, 0); // IB
    put_channel(out, 0, 0); // IC
    put_channel(out, current, DERIVED); // IN
    put_channel(out, voltage(is_fault, place), 0); // UA
    put_channel(out, healthy((place + 64) % CYCLE), 0); // UB
    put_channel(out, healthy((place + 32) % CYCLE), 0); // UC
    put_channel(out, 0, 0); // UN
}
