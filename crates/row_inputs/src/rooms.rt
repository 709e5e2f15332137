//! Rooms in memory that hold a row's inputs, and the words that name these.
ghost use Rattle.std.specs.Prelude.{◌≡◌, IfOk};
ghost use Rattle.room_io.specs.Room.{IsUnused};
ghost use Rattle.room_io.specs.Mem.{mem_state};

use relay_num::NoMemory;
use room_io::MemRoom;
use std::alloc::{AllocError, Global};

/// A room with the inputs `s.toml` and `c.pcap` and this space for each output, in which nothing was opened.
pub fn room_with(
    alloc: Global,
    space: usize,
    settings: &[u8],
    capture: &[u8],
) -> Result<MemRoom, NoMemory>
    ensures { IfOk result (λ room. IsUnused (mem_state room)) }
{
    let mut room = MemRoom::new(alloc, space)?;
    room.put("s.toml", settings)?;
    room.put("c.pcap", capture)?;
    Ok(room)
}

/// Words that stand with bars between them; none where the text is empty.
pub fn words_of(alloc: Global, line: &str) -> Result<Vec<String>, AllocError> {
    let mut words = Vec::new(alloc);
    if line.is_empty() {
        return Ok(words);
    }
    for word in line.split('|') {
        words.push(word.to_string(alloc)?)?;
    }
    Ok(words)
}
