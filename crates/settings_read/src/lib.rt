//! Reads the relay's settings file.
//!
//! A settings file is a TOML document of at most 1,048,576 bytes, of version 1 or 2. It is read by one
//! walk, which tests each key in a fixed order, and answers the settings or the first refusal that it
//! meets: a number from 1 to 12 and the path of the key. `specs/Accepted.antt` is that walk, with a
//! module for each table of the file and a line for each key, in the words of `specs/Walk.antt`; each
//! function here has the name of its definition, and a type that is read of a table that may be missing
//! names it as its `walk`. Stands on `relay_settings` for the types, `toml` for the tree, `jiff` for the
//! calendar and `arrayvec` for short texts.
#![tactic(auto)]

mod error;
mod file;
mod goose;
mod keys;
mod laws;
mod line;
mod lines;
mod octets;
mod optional;
mod place;
mod shape;
mod start;
mod tables;
mod top;
mod value;
mod version;
mod zone_v1;
mod zone_v2;
mod zones;

pub use error::SettingsError;
pub use file::read_settings;
pub use laws::{show_lines_differ, show_version_1_parts_are_equal, show_zones_have_a_part};
