//! One line of the distance relay (ANSI 21, 21N): what each of its own sample sets brings to the event log and
//! to GOOSE.
//!
//! A line numbers its sample sets, and forms the full-cycle phasors wherever a whole cycle of taken and good
//! samples ends; there it is ready. Of them it measures the phases and their symmetrical components. Three
//! guards look back over the ready samples of an unbroken run: the polarising voltage with its memory, power
//! swing and fuse failure. Up to thirty tests then say which of the six loops AG, BG, CG, AB, BC and CA are
//! inside which of five zones: by the least current, the direction, the zone's circle or quadrilateral, and no
//! block by swing, fuse or load. A loop that stays inside through the zone's delay operates it, a zone with
//! `trip` raises the trip, and the trip seals in until the line is dead. What changed is told as events, and
//! the GOOSE frame follows them where one is due. A sample set that isn't taken brings one event, and changes
//! nothing else.
//!
//! Numbers count samples from the start; a cycle has 80 or 96. Currents are in mA, voltages in counts of 10 mV,
//! reaches in milliohms, delays in samples. A mask of loops has AG in its lowest bit.
//!
//! The definition is scalar, over the list of all sample sets of the line so far, the newest first, and forms
//! each fact anew. Read it in this order:
//!
//! - `specs/Outcomes`, `specs/LineSamples`: which sample sets are taken, and which samples are ready;
//! - `specs/Phasors`, `specs/Measured`: the phasors of the last whole cycle, and what is formed of them;
//! - `specs/Guards`: the polarising voltage, power swing (68) and fuse failure (60FL);
//! - `specs/Inside`, `specs/Operate`: all that a zone asks of a loop, its delay, and the trip;
//! - `specs/Facts`, `specs/Points`: what holds at a sample, and what of it is published and sent;
//! - `specs/Events`, `specs/Bursts`: what is told of a change, and what a sample set brings.
//!
//! The code slides its sums along the samples and counts runs where the definition looks back. `specs/KeptLine`
//! says what each part of a line then holds; no definition of what a line says speaks of it.
//!
//! Each idea has a room of its own: `front` (with `filter`), `measured`, `guards`, `quiet`, `loops`, `inside`, `delays`,
//! `decide`, `shown`, `events`, `burst`; `line` calls them one after the other. What is measured is formed where it is
//! asked for, so that nothing is formed for a table that isn't there; `quiet` (`specs/FarBelow`) tells first, by the
//! parts alone, that no current is near a threshold. The rules stand in the crates
//! below: `sample_stream`, `sample_ring`, `mimic_filter` and `cycle_phasor` for the phasors, `sequence_parts` and
//! `loop_impedance` for what is formed of them, `memory_volt`, `swing_block` and `supervise` for the guards,
//! `zone_shape` and `direction` for the zones, `zone_timers` and `trip_logic` for the decision, and
//! `event_record` and `goose_publish` for what comes out.
#![tactic(auto)]

mod burst;
mod decide;
mod delays;
mod events;
mod filter;
mod front;
mod guards;
mod inside;
mod laws;
mod line;
mod loops;
mod measured;
mod quiet;
mod shown;
#[cfg(test)]
mod tests;

pub use burst::Burst;
pub use front::{Front, Outcome, Step};
pub use laws::show_untaken_keeps;
pub use line::Line;
