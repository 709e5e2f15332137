//! The relay's surroundings: the files and standard streams that a run reads and writes.
//!
//! There are eight of them, named by `Slot`. The trait `Room` says what a call on one may do and what it
//! leaves alone, and counts each slot's failures, so that a caller can prove what stands in each file
//! whatever fails. `MemRoom` is such a room in memory, for tests: it shows all that it holds, and its
//! calls can be made to fail or to give a few bytes at a time. `HostRoom` is the room of real files and
//! streams; what they hold can be claimed by no proof, so it tells no content. Lengths are in bytes.
//! Stands on `relay_num` for `NoMemory` and on `arrayvec` for names.
#![tactic(auto)]

mod host;
mod mem;
mod mem_parts;
mod mem_ports;
mod room;

pub use host::HostRoom;
pub use mem::MemRoom;
pub use room::{Fault, ReadStop, Room, Slot, read_up_to, write_whole};
