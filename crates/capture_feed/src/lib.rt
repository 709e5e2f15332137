//! Captures: pcap and pcapng files as the relay reads them, and pcap files as it writes them.
//!
//! A pcap file (the libpcap file format) is a header of 24 bytes and then records: 16 bytes of record
//! header, with the captured length in bytes, and the captured bytes of one frame. A pcapng file
//! (draft-ietf-opsawg-pcapng) is blocks: section headers, interface descriptions, packets and others,
//! which are passed over. What each format has is pieces, one behind the other, some with a record.
//! `Feed` reads them through one block of 64 KiB and hands out the records, each lent from that block.
//! Above, a feed is known only by the records that it has left (`found` of `specs/Left.antt`).
//! `put_header` and `put_record` write a pcap file with the lowest byte first and nanoseconds. Stands
//! on `room_io` for reading, `byteorder` for numbers.
#![tactic(auto)]

mod block;
mod content;
mod cursor;
mod feed;
mod numbers;
mod pcap;
mod pcapng;
mod piece;
mod section;
mod stop;
mod written;

pub use feed::{Feed, Rec};
pub use stop::FeedStop;
pub use written::{put_header, put_record, show_written_reads_back};
