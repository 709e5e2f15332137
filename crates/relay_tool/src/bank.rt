//! What runs over the sample sets of a capture.
ghost use Rattle.std.specs.Prelude.{◌≡◌, ◌+◌, ◌<◌, ◌^◌, ◌∷◌, ℕ, Bool, IsTrue, List};
ghost use Rattle.room_io.specs.Room.{IsReadyOut};
ghost use Rattle.room_io.specs.declared.room.Slot.{Slot};
ghost use Rattle.sv_frame.specs.Asdu.{PlainAsdu, plain_asdu};
ghost use Rattle.relay_tool.specs.Output.{Tells};
ghost use Rattle.relay_tool.specs.Making.{Makes, OnlyWrites};

use crate::put::Failed;
use relay_num::Steps;
use room_io::Room;
use std::sync::ledger::Ledger;
use sv_frame::Asdu;

/// What a command runs over the sample sets of a capture, one after the other. All that a run asks of it is
/// what it writes of the newest of some sample sets: its meaning is a function of their list.
pub trait Bank {
    // How many sample sets were heard.
    ghost heard: { Self → ℕ };

    // What it writes of each sample set is this, and it has heard these, which stand the newest first.
    ghost stands: { Self → Tells → List PlainAsdu → Type 0 };

    // The outputs to which it writes.
    ghost outputs: { Slot → Bool };

    /// Hears a sample set, and writes what is told of it.
    fn hear<R: Room, L: Ledger>(
        &mut self,
        a: &Asdu<'_>,
        room: &mut R,
        steps: &mut Steps<L>,
    ) -> Result<(), Failed>
        requires few { heard self.old < 2 ^ 40 }
        requires open { (slot : Slot) → IsTrue (outputs slot) → IsReadyOut slot (R.state room.old) }
        ensures only { OnlyWrites (R.state room.old) (R.state room.new) }
        ensures made { (tells : Tells) (past : List PlainAsdu) → stands self.old tells past →
            Makes (tells (plain_asdu a.now ∷ past)) (R.state room.old) (R.state room.new) result }
        ensures after { (tells : Tells) (past : List PlainAsdu) → stands self.old tells past →
            stands self.new tells (plain_asdu a.now ∷ past) }
        ensures counted { heard self.new ≡ heard self.old + 1 };
}
