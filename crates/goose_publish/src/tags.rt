//! What marks the parts of a GOOSE frame: the EtherTypes in front, and the tags of IEC 61850-8-1, those of the GOOSE
//! PDU and those of the values in its data set.

/// The EtherType of a tag of a virtual network.
pub(crate) const VIRTUAL_NETWORK: u16 = 0x8100;
/// The EtherType of GOOSE.
pub(crate) const GOOSE: u16 = 0x88B8;

/// The PDU (goosePdu).
pub(crate) const GOOSE_PDU: u8 = 0x61;
/// The reference of the control block (gocbRef).
pub(crate) const GOCB_REF: u8 = 0x80;
/// The time to live in milliseconds (timeAllowedtoLive).
pub(crate) const TIME_TO_LIVE: u8 = 0x81;
/// The reference of the data set (datSet).
pub(crate) const DAT_SET: u8 = 0x82;
/// The name of the publisher's frames (goID).
pub(crate) const GO_ID: u8 = 0x83;
/// The time of the newest change (t).
pub(crate) const TIME: u8 = 0x84;
/// The count of changes (stNum).
pub(crate) const STATE_NUMBER: u8 = 0x85;
/// The count of frames since the newest change (sqNum).
pub(crate) const SEQUENCE_NUMBER: u8 = 0x86;
/// Whether the values are simulated (simulation).
pub(crate) const SIMULATION: u8 = 0x87;
/// The configuration revision (confRev).
pub(crate) const CONF_REV: u8 = 0x88;
/// Whether the publisher needs commissioning (ndsCom).
pub(crate) const NEEDS_COMMISSIONING: u8 = 0x89;
/// The count of the data set's values (numDatSetEntries).
pub(crate) const ENTRY_COUNT: u8 = 0x8A;
/// The data set's values (allData).
pub(crate) const ALL_DATA: u8 = 0xAB;

/// A truth value of the data set (boolean).
pub(crate) const BOOLEAN: u8 = 0x83;
/// A row of bits of the data set (bit-string).
pub(crate) const BIT_STRING: u8 = 0x84;
/// A number of the data set (unsigned).
pub(crate) const UNSIGNED: u8 = 0x86;
