//! What a captured frame is to a station.

use arrayvec::ArrayVec;
use event_record::Event;
use sv_frame::Asdu;

/// What a captured frame is.
#[derive(Drop)]
pub enum Heard<'a> {
    /// Other traffic, of which nothing is said.
    Other,
    /// A frame of sampled values that is malformed: the event says which, and which layer fails first.
    Malformed(Event),
    /// The sample sets of the frame, in its order: one to sixteen.
    Pdu(ArrayVec<Asdu<'a>, 16>),
}
