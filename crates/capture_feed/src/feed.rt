//! The records of a capture, one after another.
ghost use Rattle.std.specs.Prelude.{◌≡◌, ◌≢◌, ℕ, ◌+◌, ◌^◌, ◌≤◌, ◌<◌, ◌⊎◌, length, take, drop, min, is_some, vec_len, IsSome, IsTrue, false, IfOk, IfErr, IfSome, OnSome, OnOk, OnErr, IsErrOf, is_ok};
ghost use Rattle.std.specs.Borrow.{sem};
ghost use Rattle.std.specs.Io.BufRead.{Rests};
ghost use Rattle.room_io.specs.Room.{IsReadyIn, Rose};
ghost use Rattle.room_io.specs.declared.room.Slot.TheVariants.{Capture};
ghost use Rattle.capture_feed.specs.Reads.{OnlyReads, BreaksOff};
ghost use Rattle.capture_feed.specs.Block.{pending};

use crate::block::Block;
use crate::cursor::Cursor;
use crate::pcap::{HEADER, MOST_LENT, order_of};
use crate::pcapng::is_header;
use crate::piece::Place;
use crate::section::Section;
use crate::stop::FeedStop;
use relay_num::NoMemory;
use room_io::Room;
use std::alloc::Global;

/// One record of a capture.
#[derive(Clone, Copy)]
pub struct Rec<'a> {
    /// The first captured bytes, 2048 at most, lent from the feed's block.
    pub bytes: &'a [u8],
    /// The captured length in bytes, 262,144 at most.
    pub captured: u32,
}

/// The records of the room's capture, one after another.
///
/// It is live after a successful `begin`, until `next` answers anything but a record. How reads are
/// cut changes no answer.
#[derive(Drop)]
pub struct Feed {
    limit: u64,
    block: Block,
    taken: u64,
    cursor: Cursor,
    is_live: bool,
    ghost small: { limit ≤ 2 ^ 40 },
}

impl Feed {
    ghost use Rattle.capture_feed.specs.Left.{found, is_live, taken_by, limit_of, IsFresh, Begins, HasNoHeader, HandsOut, AsksNext};
    ghost use Rattle.capture_feed.specs.contracts.feed.Feed.{the_row};

    /// A feed that goes on only while fewer than `limit` bytes were taken, which is from 24 to 2^40.
    /// It takes one block of 64 KiB and the memory of 256 interfaces, and no later call takes memory.
    pub fn new(alloc: Global, limit: u64) -> Result<Feed, NoMemory>
        requires { (24 ≤ limit) × (limit ≤ 2 ^ 40) }
        ensures { IfOk result (λ feed. IsFresh feed × (limit_of feed ≡ limit)) }
    {
        let Ok(block) = Block::new(alloc) else {
            return Err(NoMemory);
        };
        let Ok(section) = Section::new(alloc) else {
            return Err(NoMemory);
        };
        Ok(Feed {
            limit,
            block,
            taken: 0,
            cursor: Cursor::Pcapng(section),
            is_live: false,
        })
    }

    /// Whether `next` may be called.
    pub fn live(&self) -> bool
        ensures { result ≡ is_live self.now }
    {
        self.is_live
    }

    /// How many bytes were taken: in a pcap file the header and the records so far, in a pcapng file
    /// the blocks so far. After a successful `begin` 24 or 0.
    pub fn taken(&self) -> u64
        ensures { result ≡ taken_by self.now }
    {
        self.taken
    }

    /// Reads the header of a new feed's capture.
    ///
    /// `Fault`: a read failed before 24 bytes had come. `NotCapture`: the first 24 bytes, or all of
    /// a shorter input, are no header. There is no other error. After an error the feed isn't live.
    pub fn begin<R: Room>(&mut self, room: &mut R) -> Result<(), FeedStop>
        requires fresh { IsFresh self.old }
        requires ready { IsReadyIn Capture (R.state room.old) }
        ensures live { is_live self.new ≡ is_ok result }
        ensures kinds { IfErr result (λ stop. (stop ≡ FeedStop.Fault) ⊎ (stop ≡ FeedStop.NotCapture)) }
        ensures limit { limit_of self.new ≡ limit_of self.old }
        ensures taken { OnOk result (taken_by self.new ≤ 24) }
        ensures begins { OnOk result (IsTrue (R.state room.old).tells →
            Begins self.new (R.state room.old).capture.bytes (R.state room.new).capture.bytes) }
        ensures not_capture { IsErrOf result FeedStop.NotCapture → IsTrue (R.state room.old).tells →
            HasNoHeader (R.state room.old).capture.bytes (R.state room.new).capture.bytes }
        ensures rose { IsErrOf result FeedStop.Fault →
            Rose (R.state room.old).capture.faults (R.state room.new).capture.faults }
        ensures fault { IsErrOf result FeedStop.Fault → IsTrue (R.state room.old).tells →
            BreaksOff 24 (R.state room.old).capture.bytes (R.state room.new).capture.bytes }
        ensures reads { OnlyReads (R.state room.old) (R.state room.new) }
    {
        match self.block.fill(room, HEADER) {
            Ok(()) => {}
            Err(_) => return Err(FeedStop::Fault),
        }
        if self.block.held() < HEADER {
            return Err(FeedStop::NotCapture);
        }
        if is_header(self.block.rest()) {
            self.is_live = true;
            return Ok(());
        }
        match order_of(self.block.rest()) {
            Some(is_big) => {
                self.block.advance(HEADER);
                self.taken = 24;
                self.cursor = Cursor::Pcap { is_big };
                self.is_live = true;
                Ok(())
            }
            None => Err(FeedStop::NotCapture),
        }
    }

    /// Takes pieces off what is left up to the next record, and says where its bytes stand and how
    /// many there are.
    fn step<R: Room>(&mut self, room: &mut R) -> Result<Option<Place>, FeedStop>
        requires live { IsTrue (is_live self.old) }
        requires ready { IsReadyIn Capture (R.state room.old) }
        ensures live { IfOk result (λ got. is_live self.new ≡ is_some got) }
        ensures dead { OnErr result (is_live self.new ≡ false) }
        ensures limit { limit_of self.new ≡ limit_of self.old }
        ensures below { IfOk result (λ got. OnSome got (taken_by self.old < limit_of self.old)) }
        ensures fits { IfOk result (λ got. IfSome got (λ place.
            place.at + min place.captured 2048 ≤ vec_len self.new.block.bytes)) }
        ensures hands { IfOk result (λ got. IfSome got (λ place. HandsOut self.old self.new
            (take (min place.captured 2048) (drop place.at self.new.block.bytes.items))
            place.captured (R.state room.old) (R.state room.new))) }
        ensures too_long { IsErrOf result FeedStop.TooLong → limit_of self.new ≤ taken_by self.new }
        ensures asks { AsksNext self.old (R.state room.old) (R.state room.new) result }
    {
        self.is_live = false;
        while self.taken < self.limit {
            match self.cursor.next_piece(&mut self.block, room) {
                Ok(got) => match got {
                    Some(piece) => {
                        self.taken += piece.size;
                        if let Some(place) = piece.packet {
                            self.is_live = true;
                            return Ok(Some(place));
                        }
                    }
                    None => return Ok(None),
                },
                Err(stop) => return Err(stop),
            }
        }
        Err(FeedStop::TooLong)
    }

    /// The next record, whose bytes are lent until the feed is used again; `None` where the input
    /// ended behind a whole record or the header.
    ///
    /// `Cut`: the input ended within a record or block. `Damaged`: a captured length is above 262,144,
    /// or a block isn't sound.
    /// `TooLong`: what was taken makes the limit or more; where it does at the call, nothing is read.
    /// `Fault`: a read failed, and the bytes read so far hold no further whole record. `NotCapture`
    /// never comes.
    pub fn next<'f, R: Room>(&'f mut self, room: &mut R) -> Result<Option<Rec<'f>>, FeedStop>
        requires live { IsTrue (is_live self.old) }
        requires ready { IsReadyIn Capture (R.state room.old) }
        ensures* after { sem 𝓛 (Rests the_row self.entry (λ new. (limit_of new ≡ limit_of self.old) ×
            ((IfOk result (λ got. is_live new ≡ is_some got) × OnErr result (is_live new ≡ false)) ×
            ((IsErrOf result FeedStop.TooLong → limit_of new ≤ taken_by new) ×
            IfOk result (λ got. IfSome got (λ rec. HandsOut self.old new rec.bytes.now rec.captured
            (R.state room.old) (R.state room.new))))))) }
        ensures below { IfOk result (λ got. OnSome got (taken_by self.old < limit_of self.old)) }
        ensures lent { IfOk result (λ got. IfSome got (λ rec.
            length rec.bytes.now ≡ min rec.captured 2048)) }
        ensures asks { AsksNext self.old (R.state room.old) (R.state room.new) result }
    {
        match self.step(room) {
            Ok(got) => match got {
                Some(place) => {
                    let kept = place.captured.min(MOST_LENT) as usize;
                    Ok(Some(Rec {
                        bytes: &self.block.bytes[place.at..place.at + kept],
                        captured: place.captured,
                    }))
                }
                None => Ok(None),
            },
            Err(stop) => Err(stop),
        }
    }
}
