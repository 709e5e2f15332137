//! Inverse-time overcurrent of each phase as a backup (ANSI 51): for each line of the settings, when the current
//! of phase A, B or C picks up, drops, and has lasted as long as its curve asks.
//!
//! The curves are the very and the extremely inverse ones of IEC 60255-151, `t = TMS * k / (M^alpha - 1)`, where
//! M is the current as a multiple of the pickup: k = 13.5 and alpha = 1, or k = 80 and alpha = 2. Each sample of
//! a run in which the phase is picked up adds `M^alpha - 1`, and the element operates where the sum has come to
//! `TMS * k` seconds. That summation, the limit of 20 times the pickup, and the reset at once at a drop, at a gap
//! in the numbers and at a bad sample are this project's own.
//!
//! Currents are full-cycle phasors, the pickup is in mA, and TMS in thousandths. The square of a multiple is in
//! millionths, and so is what it adds at the extremely inverse curve; the multiple itself, and what it adds at
//! the very inverse curve, is in thousandths.
//!
//! The definition speaks of sample numbers, over the list of a line's samples, and forms each fact anew: read
//! `specs/Multiples`, `specs/InverseCurves`, `specs/Overcurrents` (what holds of a phase), `specs/BackupEvents`
//! (what is told) and `specs/BackupLines` (which line tells it); `specs/BackupTexts` has the text of the log. The
//! code keeps one sum a phase, which `specs/KeptElement` says. It stands on `Front` of `line_relay` for the
//! samples and their phasors, and takes memory only in `Backups::new`.
#![tactic(auto)]

mod backup;
mod curve;
mod element;
mod event;
mod numbers;
mod text;

pub use backup::{Backup, Backups};
pub use curve::{Curve, Dial};
pub use event::{BackupEvent, BackupWhat};
pub use numbers::multiple;
pub use text::print_backup;
