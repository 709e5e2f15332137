//! The settings of the relay: what all lines share, and each line with its tables and zones.
//!
//! The fields have the names of the settings file's keys. Reaches and resistances are milliohms,
//! currents are primary rms counts of 1 mA, voltages primary rms counts of 10 mV, times with the
//! ending `_ms` milliseconds, and factors and shares thousandths. A zone has a part for the ground
//! loops, a part for the phase loops, or both. `specs/Ranges.antt` has the range of each field,
//! `specs/Settings.antt` the settings as plain data, and `specs/Times.antt` the samples that a time
//! makes. Stands on `relay_num` for complex numbers and on `arrayvec` for short texts and lists.
#![tactic(auto)]

mod copying;
mod times;
mod types;

pub use times::{samples_of, wide_samples_of};
pub use types::{
    Common, Dir, FuseSettings, GooseSettings, LineSettings, LoadSettings, MOST_LINES, MOST_ZONES,
    Mimic, QuadSettings, Settings, Shape, SwingSettings, ZonePart, ZoneSettings,
};
