//! The versions of the settings file.

/// Version 1 has one shape and delay a zone; version 2 has a part for the ground loops, a part for the
/// phase loops, or both.
#[derive(Clone, Copy)]
pub(crate) enum Version {
    One,
    Two,
}
