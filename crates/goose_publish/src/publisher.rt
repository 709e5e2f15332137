//! The publisher of a line.
ghost use Rattle.std.specs.Prelude.{◌≡◌, ◌≤◌};

use crate::frame::{FrameRoom, put_frame};
use crate::points::{Points, Send};
use crate::schedule::Schedule;
use arrayvec::ArrayVec;
use relay_settings::{Common, GooseSettings};

/// Decides at each taken sample whether a frame is sent, and writes the frames.
#[derive(Drop)]
pub struct Publisher {
    common: Common,
    goose: GooseSettings,
    schedule: Schedule,
    ghost fast: { 1000 ≤ common.rate },
    ghost slow: { common.rate ≤ 4800 },
    ghost vlan_priority: { goose.vlan_priority ≤ 7 },
    ghost vlan_id: { goose.vlan_id ≤ 4095 },
}

impl Publisher {
    ghost use Rattle.std.specs.Prelude.{ℕ, ◌≡◌, ◌<◌, ◌≤◌, ◌^◌, not, List, [], ◌∷◌, length, IfSome, IsTrue};
    ghost use Rattle.std.specs.Option.{ForSome};
    ghost use Rattle.relay_settings.specs.declared.types.Common.{Common};
    ghost use Rattle.goose_publish.specs.declared.points.Points.{Points};
    ghost use Rattle.relay_settings.specs.Settings.{PlainGoose, plain_goose};
    ghost use Rattle.relay_settings.specs.Ranges.{IsCommon, IsGoose};
    ghost use Rattle.goose_publish.specs.Publishing.{PointsTake, take_of, RisesTo, sends_now, send_of};
    ghost use Rattle.goose_publish.specs.Schedules.{points_now};
    ghost use Rattle.goose_publish.specs.Sends.{IsSentAt};
    ghost use Rattle.goose_publish.specs.GooseFrame.{fields_bytes, frame_bytes};
    ghost use Rattle.goose_publish.specs.FrameEnds.{EndsAtItsLength};
    ghost use Rattle.goose_publish.specs.Publishers.{HasSettings, StandsFor};

    /// One that has taken nothing. The settings are in their ranges.
    pub fn new(common: &Common, goose: &GooseSettings) -> Publisher
        requires common { IsCommon common.now }
        requires goose { IsGoose goose.now }
        ensures { StandsFor common.now (plain_goose goose.now) [] result }
    {
        Publisher {
            common: *common,
            goose: goose.copy(),
            schedule: Schedule::new(common),
        }
    }

    /// Takes the points of the next sample, and answers the frame that is sent at it.
    ///
    /// A frame is sent where the sample is the first, where its points differ from those of the sample taken
    /// before, and where an offset of the schedule falls after that sample and not after this one: one frame,
    /// however many offsets do. The offsets count from the last change; they are 0 ms and then rise by steps of
    /// 4, 8, 16 ms and so on, none longer than the heartbeat. None comes exactly where nothing is sent.
    ///
    /// Numbers rise, and are below 2^61.
    pub fn take(&mut self, number: u64, points: &Points) -> Option<Send>
        requires { number < 2 ^ 61 }
        // By the takes before: for each list of them, the newest first, that the publisher stands for.
        ensures send { (common : Common) (goose : PlainGoose) (takes : List PointsTake) →
            StandsFor common goose takes self.old → RisesTo (take_of number points.now) takes →
            result ≡ send_of common (take_of number points.now) takes }
        ensures after { (common : Common) (goose : PlainGoose) (takes : List PointsTake) →
            StandsFor common goose takes self.old → RisesTo (take_of number points.now) takes →
            StandsFor common goose (take_of number points.now ∷ takes) self.new }
        // By this take alone.
        ensures sent { IfSome result (λ s. IsSentAt number points.now s) }
    {
        self.schedule.take(number, points)
    }

    /// Whether nothing is sent at the next sample, where its points are those of the last take. It needn't be taken then:
    /// the publisher stands for the longer list too. Before the first take something always is.
    pub fn is_idle(&self, number: u64) -> bool
        requires { number < 2 ^ 61 }
        ensures idle { (common : Common) (goose : PlainGoose) (takes : List PointsTake) (points : Points) →
            StandsFor common goose takes self.now → RisesTo (take_of number points) takes → ForSome (points_now takes) (λ last. last ≡ points) →
            result ≡ not (sends_now common (take_of number points ∷ takes)) }
        ensures after { (common : Common) (goose : PlainGoose) (takes : List PointsTake) (points : Points) →
            StandsFor common goose takes self.now → RisesTo (take_of number points) takes → ForSome (points_now takes) (λ last. last ≡ points) →
            IsTrue result → StandsFor common goose (take_of number points ∷ takes) self.now }
    {
        self.schedule.is_idle(number)
    }

    /// The bytes of a frame that is sent, from the destination to the end of the PDU (IEC 61850-8-1). They depend
    /// on the settings and on the frame alone, and each value of `Send` has them.
    pub fn frame_bytes(&self, send: &Send) -> ArrayVec<u8, 1024>
        ensures bytes { (common : Common) (goose : PlainGoose) → HasSettings common goose self.now →
            result.items ≡ frame_bytes common goose send.now }
        // A reader that goes by Length and by the basic encoding rules finds the PDU, and nothing behind it.
        ensures ends { (common : Common) (goose : PlainGoose) → HasSettings common goose self.now →
            EndsAtItsLength (fields_bytes common goose send.now) result.items }
        ensures long { length result.items ≤ 640 }
    {
        let mut room = FrameRoom::new();
        self.frame_into(send, &mut room);
        room.bytes
    }

    /// The same, in place of the frame that was made in the room before. The room is kept from frame to frame, and nothing
    /// large is made or cleared.
    pub fn frame_into(&self, send: &Send, room: &mut FrameRoom)
        ensures bytes { (common : Common) (goose : PlainGoose) → HasSettings common goose self.now →
            room.new.bytes.items ≡ frame_bytes common goose send.now }
        ensures ends { (common : Common) (goose : PlainGoose) → HasSettings common goose self.now →
            EndsAtItsLength (fields_bytes common goose send.now) room.new.bytes.items }
        ensures long { length room.new.bytes.items ≤ 640 }
    {
        put_frame(room, &self.common, &self.goose, send);
    }
}
