//! What marks the parts of a frame of sampled values: the EtherTypes in front, and the tags of IEC 61850-9-2, those of
//! the SavPdu and those of an ASDU's fields.

/// The EtherType of a tag of a virtual network.
pub(crate) const VIRTUAL_NETWORK: u16 = 0x8100;
/// The EtherType of sampled values.
pub(crate) const SAMPLED_VALUES: u16 = 0x88ba;

/// The PDU, which fills the APDU (savPdu).
pub(crate) const SAV_PDU: u8 = 0x60;
/// The count of the ASDUs (noASDU).
pub(crate) const ASDU_COUNT: u8 = 0x80;
/// The security field, which may be missing (security).
pub(crate) const SECURITY: u8 = 0x81;
/// The sequence of the ASDUs (seqASDU).
pub(crate) const ASDU_SEQUENCE: u8 = 0xa2;
/// One ASDU of the sequence.
pub(crate) const ASDU: u8 = 0x30;

/// The name of the stream (svID).
pub(crate) const SV_ID: u8 = 0x80;
/// The sample counter (smpCnt).
pub(crate) const COUNTER: u8 = 0x82;
/// The configuration revision (confRev).
pub(crate) const CONF_REV: u8 = 0x83;
/// The state of the clock (smpSynch).
pub(crate) const SYNCH: u8 = 0x85;
/// The data set (sample).
pub(crate) const SAMPLES: u8 = 0x87;

/// The least tag of a field that an ASDU knows, which is that of svID.
pub(crate) const FIRST_FIELD: u8 = SV_ID;
/// The greatest tag of a field that an ASDU knows (gmIdentity).
pub(crate) const LAST_FIELD: u8 = 0x89;
