//! Elements of the basic encoding rules (ITU-T X.690), read from bytes and written to them.
//!
//! An element is a tag of one byte, a length, and as many bytes of contents as the length says. The
//! length has the definite form with at most four bytes behind the first: frames of sampled values
//! and GOOSE frames (IEC 61850-9-2 and 61850-8-1) use no other. Reading takes any spelling of a
//! length, writing the shortest. `specs/Element.antt` has the grammar and the reading,
//! `specs/Written.antt` what is written; the `show_` functions are laws that tie them, and do nothing.
//!
//! Each head that is read counts as one step. Nothing here takes memory.
#![tactic(auto)]

mod laws;
mod put;
mod read;

pub use laws::{
    show_one_reading, show_shortest_length, show_shortest_number, show_written_is_read,
};
pub use put::{put_bits, put_bool, put_head, put_text, put_unsigned};
pub use read::{BadHead, BerHead, head};
