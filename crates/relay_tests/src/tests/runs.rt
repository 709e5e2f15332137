//! Runs of the top call in rooms of memory: what a run is given, what it leaves, and what it is to leave.
//!
//! The top call stands here alone, and `run` says nothing of it, so that no row's proof has its whole contract before it.
ghost use Rattle.std.specs.Prelude.{◌≡◌};
ghost use Rattle.room_io.specs.Mem.{mem_state};

use relay_num::NoMemory;
use relay_tool::relay;
use room_io::{MemRoom, Slot};
use row_inputs::{room_with, words_of};
use std::alloc::Global;
use std::process::Abort;
use std::test::Fail;

/// What a run is given: its words with bars between them, the contents of `s.toml` and of `c.pcap`, the space of each
/// output, the most bytes that a read or a write moves, and which calls of which slots fail.
#[derive(Clone, Copy)]
pub struct Inputs<'a> {
    pub words: &'a str,
    pub settings: &'a str,
    pub capture: &'a [u8],
    pub space: usize,
    pub most: usize,
    pub fails: &'a [(Slot, u64)],
}

/// These words over these inputs, with space enough, whole reads and writes, and no call that fails.
pub fn given<'a>(words: &'a str, settings: &'a str, capture: &'a [u8]) -> Inputs<'a> {
    Inputs {
        words,
        settings,
        capture,
        space: 4000,
        most: 65537,
        fails: &[],
    }
}

/// The words of the main job.
pub const REPLAY: &str = "replay|s.toml|c.pcap|g|l";

/// What a run leaves.
#[derive(Drop)]
pub struct Left {
    pub status: u8,
    pub room: MemRoom,
    /// The run's words, pieces and failing calls, for the message of an assertion.
    pub told: String,
}

/// What a GOOSE file is to be.
#[derive(Clone, Copy)]
pub enum Goose<'a> {
    Is(&'a [u8]),
    IsLong(usize),
}

/// What a run is to leave: its status, its note, its answer, the log and the GOOSE file.
#[derive(Clone, Copy)]
pub struct Outcome<'a> {
    pub status: u8,
    pub note: &'a str,
    pub answer: &'a str,
    pub log: &'a str,
    pub goose: Goose<'a>,
}

/// A run to its end that writes nothing.
pub const DONE: Outcome = Outcome {
    status: 0,
    note: "",
    answer: "",
    log: "",
    goose: Goose::Is(&[]),
};

/// Notes the calls that fail.
fn note_fails(room: &mut MemRoom, fails: &[(Slot, u64)]) -> Result<(), NoMemory>
    ensures { mem_state room.new ≡ mem_state room.old }
{
    for (slot, call) in fails {
        room.fail(*slot, *call)?;
    }
    Ok(())
}

/// Runs the relay.
pub fn run(alloc: Global, given: &Inputs) -> Result<Left, Fail> {
    let words = words_of(alloc, given.words)?;
    let told = format!(in alloc; "{} in {} {:?}", given.words, given.most, given.fails)?;
    let settings = given.settings.as_bytes();
    let mut room = room_with(alloc, given.space, settings, given.capture)?;
    room.pieces(given.most.max(1));
    note_fails(&mut room, given.fails)?;
    let status = relay(alloc, &words, &mut room);
    Ok(Left { status, room, told })
}

/// Whether the run left this.
pub fn expect(rt: &impl Abort, left: &Left, want: &Outcome) {
    let (told, room) = (left.told.as_str(), &left.room);
    assert_eq!(rt; room.written(Slot::Log), want.log.as_bytes(), "{told}");
    assert_eq!(rt; room.written(Slot::Note), want.note.as_bytes(), "{told}");
    assert_eq!(rt;
        room.written(Slot::Answer),
        want.answer.as_bytes(),
        "{told}"
    );
    assert_eq!(rt; left.status, want.status, "{told}");
    expect_goose(rt, room.written(Slot::Goose), want.goose, told);
}

fn expect_goose(rt: &impl Abort, file: &[u8], want: Goose, told: &str) {
    match want {
        Goose::Is(bytes) => assert_eq!(rt; file, bytes, "{told}"),
        Goose::IsLong(length) => assert_eq!(rt; file.len(), length, "{told}"),
    }
}

/// Runs the relay and asks whether it left this.
pub fn run_to(
    rt: &impl Abort,
    alloc: Global,
    given: &Inputs,
    want: &Outcome,
) -> Result<Left, Fail> {
    let left = run(alloc, given)?;
    expect(rt, &left, want);
    Ok(left)
}

/// Runs `replay` on these inputs, with reads and writes whole and in pieces.
pub fn run_in_pieces(
    rt: &impl Abort,
    alloc: Global,
    settings: &str,
    capture: &[u8],
    want: &Outcome,
) -> Result<(), Fail> {
    for most in [1, 7, 65537] {
        let whole = given(REPLAY, settings, capture);
        run_to(rt, alloc, &Inputs { most, ..whole }, want)?;
    }
    Ok(())
}

/// Whether no call that was to fail came on these slots.
pub fn expect_no_calls(rt: &impl Abort, left: &Left, slots: &[Slot]) {
    for slot in slots {
        assert_eq!(rt;
            left.room.faults(*slot),
            0,
            "{slot:?} {}",
            left.told.as_str()
        );
    }
}
