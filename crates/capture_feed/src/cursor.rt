//! What a capture is read by: its format, and what the format keeps from one piece to the next.
ghost use Rattle.std.specs.Prelude.{◌≡◌, ℕ, ◌+◌, ◌<◌, ◌≢◌, IfOk, IfSome, IfErr};
ghost use Rattle.room_io.specs.Room.{IsReadyIn};
ghost use Rattle.room_io.specs.declared.room.Slot.TheVariants.{Capture};
ghost use Rattle.capture_feed.specs.Reads.{OnlyReads};
ghost use Rattle.capture_feed.specs.Pieces.{left_by, IsSound, Asks};

use crate::block::Block;
use crate::pcap::next_record;
use crate::pcapng::next_block;
use crate::piece::Piece;
use crate::section::Section;
use crate::stop::FeedStop;
use room_io::Room;

/// The format of a capture.
#[derive(Drop)]
pub enum Cursor {
    /// A pcap file, whose numbers have the highest byte first or last.
    Pcap { is_big: bool },
    /// A pcapng file, and its section.
    Pcapng(Section),
}

impl Cursor {
    /// Takes the next piece off what is left; `None` at the whole end.
    pub fn next_piece<R: Room>(
        &mut self,
        block: &mut Block,
        room: &mut R,
    ) -> Result<Option<Piece>, FeedStop>
        requires ready { IsReadyIn Capture (R.state room.old) }
        ensures reads { OnlyReads (R.state room.old) (R.state room.new) }
        ensures sound { IfOk result (λ got. IfSome got (λ piece. IsSound block.new piece)) }
        ensures kinds { IfErr result (λ stop. stop ≢ FeedStop.TooLong) }
        ensures asks { (limit taken : ℕ) → taken < limit → Asks (left_by self.old block.old limit taken)
            (λ size. left_by self.new block.new limit (taken + size))
            block.new (R.state room.old) (R.state room.new) result }
    {
        match self {
            Cursor::Pcap { is_big } => next_record(block, *is_big, room),
            Cursor::Pcapng(section) => next_block(block, section, room),
        }
    }
}
