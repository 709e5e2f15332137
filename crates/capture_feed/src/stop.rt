//! Why no record comes.

/// Why no record comes.
#[derive(Clone, Copy, Debug, PartialEq, Eq)]
pub enum FeedStop {
    /// A read of the capture failed.
    Fault,
    /// The input begins with no header of a capture.
    NotCapture,
    /// The input ended within a record, or in a pcapng file within a block.
    Cut,
    /// In a pcap file a record header tells this captured length, which is above 262,144 bytes; in a
    /// pcapng file a block with this total length isn't sound.
    Damaged { length: u32 },
    /// What was taken so far makes as many bytes as the feed allows.
    TooLong,
}
