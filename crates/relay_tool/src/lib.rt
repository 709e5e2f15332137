//! The relay as a program: words and a room in, a status out.
//!
//! `replay SETTINGS CAPTURE GOOSE LOG` reads settings and a capture and writes the event log and a
//! GOOSE capture; `check SETTINGS` says whether settings would be accepted; `drill SEED SECONDS` runs an
//! exercise and counts what it brings; `backup`, `locate` and `guard` are studies, which read settings and a capture and
//! write the log alone. `relay` does one of them in a fixed order of work, and its contract is
//! the headline (`specs/Headline.antt`) with the statuses, notes, names and contents of every end
//! (`specs/Answers.antt`).
//!
//! Each stage of the work has a file and an error type of its own: `words`, `settings`, `files`, `run`, `put`. A
//! command chooses a bank (`bank`: `lines`, or `study_bank` over `backups`, `locators` or `guards`) and its outputs, and `run` treats a capture's records for any
//! bank. It stands on the public contracts of the room, the feed, the settings and the station, and knows
//! nothing of how frames are read or samples are measured.
#![tactic(auto)]

mod backups;
mod bank;
mod check;
mod end;
mod exercise;
mod files;
mod guards;
mod laws;
mod lines;
mod listen;
mod locators;
mod note;
mod pair;
mod put;
mod recording;
mod replay;
mod run;
mod settings;
mod study;
mod study_bank;
mod tally;
mod top;
mod words;

pub use laws::{show_apart, show_malformed, show_parts_are_equal};
pub use top::relay;
