//! The bytes of a capture that were read ahead, in one block of memory.
ghost use Rattle.std.specs.Prelude.{◌≡◌, ◌+◌, ◌-◌, ◌^◌, ◌≤◌, ◌<◌, ◌++◌, ◌∷◌, [], length, drop, take, vec_len, IsTrue, true, false, IfOk, IfSome, IfNone, OnOk, OnErr, is_ok};
ghost use Rattle.room_io.specs.Room.{IsReadyIn, Rose};
ghost use Rattle.room_io.specs.declared.room.Slot.TheVariants.{Capture};
ghost use Rattle.capture_feed.specs.Reads.{OnlyReads, Passes, BreaksOff};

use relay_num::NoMemory;
use room_io::{Fault, Room, Slot};
use std::alloc::Global;

/// How many bytes a block has room for.
const BLOCK: usize = 65536;

/// The most bytes of one read of bytes that are passed over.
const PIECE: usize = 4096;

/// Bytes that were read ahead: those from `at` up to `end` were not yet handed out, and behind them is
/// room for the next read.
#[derive(Drop)]
pub struct Block {
    pub bytes: Vec<u8>,
    pub at: usize,
    pub end: usize,
    ghost size: { vec_len bytes ≡ 65536 },
    ghost within: { (at ≤ end) × (end ≤ 65536) },
}

/// Passes over so many bytes; false where the input ends before. It stands out of line, since its piece
/// would be part of each record's frame on the stack.
#[inline(never)]
fn pass_over<R: Room>(room: &mut R, count: u64) -> Result<bool, Fault>
    requires ready { IsReadyIn Capture (R.state room.old) }
    ensures all { IfOk result (λ all. all ≡ true → IsTrue (R.state room.old).tells →
        Passes count (R.state room.old).capture.bytes (R.state room.new).capture.bytes) }
    ensures ended { IfOk result (λ all. all ≡ false → IsTrue (R.state room.old).tells →
        length (R.state room.old).capture.bytes < count) }
    ensures broken { OnErr result (IsTrue (R.state room.old).tells →
        BreaksOff count (R.state room.old).capture.bytes (R.state room.new).capture.bytes) }
    ensures reads { OnlyReads (R.state room.old) (R.state room.new) }
    ensures failed { OnErr result (Rose (R.state room.old).capture.faults
        (R.state room.new).capture.faults) }
{
    let mut piece = [0u8; PIECE];
    let mut left = count;
    while left > 0 {
        let want = left.min(PIECE as u64) as usize;
        match room.read(Slot::Capture, &mut piece[..want]) {
            Ok(0) => return Ok(false),
            Ok(passed) => left -= passed as u64,
            Err(fault) => return Err(fault),
        }
    }
    Ok(true)
}

impl Block {
    ghost use Rattle.capture_feed.specs.Block.{pending, Fills};

    /// An empty block of 64 KiB.
    pub fn new(alloc: Global) -> Result<Block, NoMemory>
        ensures { IfOk result (λ block. pending block ≡ []) }
    {
        match vec![in alloc; 0; BLOCK] {
            Ok(bytes) => Ok(Block {
                bytes,
                at: 0,
                end: 0,
            }),
            Err(_) => Err(NoMemory),
        }
    }

    /// How many bytes it holds.
    pub fn held(&self) -> usize
        ensures { result ≡ length (pending self.now) }
    {
        self.end - self.at
    }

    /// The bytes that it holds.
    pub fn rest(&self) -> &[u8]
        ensures { result.now ≡ pending self.now }
    {
        &self.bytes[self.at..self.end]
    }

    /// Passes over bytes that it holds.
    pub fn advance(&mut self, count: usize)
        requires { count ≤ length (pending self.old) }
        ensures { pending self.new ≡ drop count (pending self.old) }
    {
        self.at += count;
    }

    /// Moves what it holds to the front.
    fn move_to_front(&mut self)
        ensures held { pending self.new ≡ pending self.old }
        ensures front { self.new.at ≡ 0 }
    {
        self.bytes.copy_within(self.at..self.end, 0);
        self.end -= self.at;
        self.at = 0;
    }

    /// Reads once behind what it holds, as far as there is room, and tells how many bytes came.
    fn read_once<R: Room>(&mut self, room: &mut R) -> Result<usize, Fault>
        requires ready { IsReadyIn Capture (R.state room.old) }
        requires room { self.old.end < 65536 }
        ensures left { IsTrue (R.state room.old).tells →
            pending self.old ++ (R.state room.old).capture.bytes ≡
            pending self.new ++ (R.state room.new).capture.bytes }
        ensures count { IfOk result (λ count. self.new.end ≡ self.old.end + count) }
        ensures end { IfOk result (λ count. count ≡ 0 → IsTrue (R.state room.old).tells →
            (R.state room.new).capture.bytes ≡ []) }
        ensures failed { OnErr result (self.new.end ≡ self.old.end) }
        ensures at { self.new.at ≡ self.old.at }
        ensures reads { OnlyReads (R.state room.old) (R.state room.new) }
        ensures rose { OnErr result (Rose (R.state room.old).capture.faults
            (R.state room.new).capture.faults) }
    {
        let count = room.read(Slot::Capture, &mut self.bytes[self.end..])?;
        self.end += count;
        Ok(count)
    }

    /// Reads until it holds so many bytes or the input ends, in place of what was handed out. It stands
    /// out of line, since most records are held whole.
    #[inline(never)]
    fn read_until<R: Room>(&mut self, room: &mut R, need: usize) -> Result<(), Fault>
        requires ready { IsReadyIn Capture (R.state room.old) }
        requires few { need ≤ 4096 }
        requires fewer { length (pending self.old) < need }
        ensures { Fills need self.old self.new (R.state room.old) (R.state room.new) result }
    {
        self.move_to_front();
        while self.end < need {
            if self.read_once(room)? == 0 {
                return Ok(());
            }
        }
        Ok(())
    }

    /// Reads until it holds so many bytes or the input ends. Each read takes as much as there is room for.
    pub fn fill<R: Room>(&mut self, room: &mut R, need: usize) -> Result<(), Fault>
        requires ready { IsReadyIn Capture (R.state room.old) }
        requires few { need ≤ 4096 }
        ensures { Fills need self.old self.new (R.state room.old) (R.state room.new) result }
    {
        if self.end - self.at >= need {
            return Ok(());
        }
        self.read_until(room, need)
    }

    /// Passes over so many bytes; false where the input ends before.
    pub fn skip<R: Room>(&mut self, room: &mut R, count: u64) -> Result<bool, Fault>
        requires ready { IsReadyIn Capture (R.state room.old) }
        ensures bytes { self.new.bytes ≡ self.old.bytes }
        ensures all { IfOk result (λ all. all ≡ true → IsTrue (R.state room.old).tells →
            Passes count (pending self.old ++ (R.state room.old).capture.bytes)
            (pending self.new ++ (R.state room.new).capture.bytes)) }
        ensures ended { IfOk result (λ all. all ≡ false → IsTrue (R.state room.old).tells →
            length (pending self.old ++ (R.state room.old).capture.bytes) < count) }
        ensures broken { OnErr result (IsTrue (R.state room.old).tells →
            BreaksOff count (pending self.old ++ (R.state room.old).capture.bytes)
            (R.state room.new).capture.bytes) }
        ensures reads { OnlyReads (R.state room.old) (R.state room.new) }
        ensures failed { OnErr result (Rose (R.state room.old).capture.faults
            (R.state room.new).capture.faults) }
    {
        let held = self.end - self.at;
        if count <= held as u64 {
            self.at += count as usize;
            return Ok(true);
        }
        self.at = self.end;
        match pass_over(room, count - held as u64) {
            Ok(all) => Ok(all),
            Err(fault) => Err(fault),
        }
    }

    /// Takes the next byte; `None` at the input's end.
    fn next_byte<R: Room>(&mut self, room: &mut R) -> Result<Option<u8>, Fault>
        requires ready { IsReadyIn Capture (R.state room.old) }
        ensures bytes { self.new.bytes ≡ self.old.bytes }
        ensures some { IfOk result (λ got. IfSome got (λ byte. IsTrue (R.state room.old).tells →
            pending self.old ++ (R.state room.old).capture.bytes ≡
            byte ∷ (pending self.new ++ (R.state room.new).capture.bytes))) }
        ensures none { IfOk result (λ got. IfNone got (IsTrue (R.state room.old).tells →
            pending self.old ++ (R.state room.old).capture.bytes ≡ [])) }
        ensures broken { OnErr result (IsTrue (R.state room.old).tells →
            pending self.old ++ (R.state room.old).capture.bytes ≡ (R.state room.new).capture.bytes) }
        ensures reads { OnlyReads (R.state room.old) (R.state room.new) }
        ensures failed { OnErr result (Rose (R.state room.old).capture.faults
            (R.state room.new).capture.faults) }
    {
        if self.at < self.end {
            let byte = self.bytes[self.at];
            self.at += 1;
            return Ok(Some(byte));
        }
        let mut one = [0u8; 1];
        match room.read(Slot::Capture, &mut one) {
            Ok(0) => Ok(None),
            Ok(_) => Ok(Some(one[0])),
            Err(fault) => Err(fault),
        }
    }

    /// Takes the next four bytes; `None` where the input ends before. The bytes that it holds stay
    /// where they are.
    pub fn take_four<R: Room>(&mut self, room: &mut R) -> Result<Option<[u8; 4]>, Fault>
        requires ready { IsReadyIn Capture (R.state room.old) }
        ensures bytes { self.new.bytes ≡ self.old.bytes }
        ensures some { IfOk result (λ got. IfSome got (λ four. IsTrue (R.state room.old).tells →
            pending self.old ++ (R.state room.old).capture.bytes ≡
            four ++ (pending self.new ++ (R.state room.new).capture.bytes))) }
        ensures long { IfOk result (λ got. IfSome got (λ four. length four ≡ 4)) }
        ensures none { IfOk result (λ got. IfNone got (IsTrue (R.state room.old).tells →
            length (pending self.old ++ (R.state room.old).capture.bytes) < 4)) }
        ensures broken { OnErr result (IsTrue (R.state room.old).tells →
            BreaksOff 4 (pending self.old ++ (R.state room.old).capture.bytes)
            (R.state room.new).capture.bytes) }
        ensures reads { OnlyReads (R.state room.old) (R.state room.new) }
        ensures failed { OnErr result (Rose (R.state room.old).capture.faults
            (R.state room.new).capture.faults) }
    {
        let mut four = [0u8; 4];
        for i in 0..4 {
            match self.next_byte(room) {
                Ok(Some(byte)) => four[i] = byte,
                Ok(None) => return Ok(None),
                Err(fault) => return Err(fault),
            }
        }
        Ok(Some(four))
    }
}
