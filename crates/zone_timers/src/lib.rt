//! The delays of the zones: which loops operate, of those that are inside.
//!
//! A zone's mask has a bit for each loop: bit 0 for AG, then BG, CG, AB, BC and CA. A loop operates where it
//! was inside at this take and at the last takes before it, as many as its delay; each loop of each zone is
//! timed on its own. AG, BG and CG have the delay of the zone's ground part, AB, BC and CA that of its phase
//! part. Delays are in samples, and one sample is one take. `specs/Operate.antt` says it over the whole list
//! of takes, `specs/NumberedOperate.antt` over sample numbers that may have gaps. It stands on
//! `sample_windows` for the windows, on `loop_impedance` for the order of the loops, and takes no memory.
//!
//! The law over numbers is `show_operates_by_number`; proofs cite `OperateLemmas.operates_numbered`. Its premises:
//! no loop is inside of no samples, nor at a sample that follows a gap, and the numbers rise.
#![tactic(auto)]

ghost use Rattle.std.specs.Prelude.{ℕ, ◌<◌, ◌≤◌, [], All, slice_index, slice_index_or};

mod laws;
#[cfg(test)]
mod tests;
mod zone;

pub use laws::show_operates_by_number;
use zone::{ends_of, is_none, take_zones};

/// For each loop of each of five zones, for how many takes in a row it has been inside, up to one more than
/// its delay: 30 loops that share nothing. A zone's six loops stand in the first six of eight lanes.
#[derive(Drop)]
pub struct Timers {
    /// One more than each loop's delay: a run that has come to it operates.
    ends: [[u32; 8]; 5],
    runs: [[u32; 8]; 5],
    ghost some: { (zone lp : ℕ) → zone < 5 → lp < 6 → 0 < slice_index (slice_index_or ends zone []) lp },
}

impl Timers {
    ghost use Rattle.std.specs.Prelude.{ℕ, ◌≡◌, ◌≤◌, All, List, [], ◌∷◌};
    ghost use Rattle.zone_timers.specs.Operate.{operated_masks};
    ghost use Rattle.zone_timers.specs.KeptTimers.{StandsFor};

    /// Timers that have taken nothing, with these delays in samples: of each zone's ground part and of its
    /// phase part. Each delay is at most 288,000 samples, a minute at 4800 samples a second.
    pub fn new(ground_delays: &[u32; 5], phase_delays: &[u32; 5]) -> Timers
        requires ground_delays { All (λ delay. delay ≤ 288000) ground_delays.now }
        requires phase_delays { All (λ delay. delay ≤ 288000) phase_delays.now }
        ensures { StandsFor ground_delays.now phase_delays.now [] result }
    {
        Timers {
            ends: ends_of(ground_delays, phase_delays),
            runs: [[0; 8]; 5],
        }
    }

    /// Takes the masks of the loops that are inside, one for each zone, and answers the masks of those that
    /// operate: a loop's bit stands exactly where it stood in this take and in the last takes before it, as
    /// many as its delay, since the last `clear`. There are six loops: bits 6 and 7 of a mask are not read,
    /// and the answer has none.
    pub fn take(&mut self, inside: &[u8; 5]) -> [u8; 5]
        ensures operated { (ground_delays phase_delays : List ℕ) (takes : List (List ℕ)) → StandsFor ground_delays phase_delays takes self.old →
            result ≡ operated_masks ground_delays phase_delays (inside.now ∷ takes) }
        ensures after { (ground_delays phase_delays : List ℕ) (takes : List (List ℕ)) → StandsFor ground_delays phase_delays takes self.old →
            StandsFor ground_delays phase_delays (inside.now ∷ takes) self.new }
    {
        // Where nothing is inside no run goes on, whatever it was.
        if is_none(inside) {
            self.clear();
            return [0; 5];
        }
        take_zones(&self.ends, inside, &mut self.runs)
    }

    /// Forgets all takes: every loop of every zone starts anew. The delays stay.
    pub fn clear(&mut self)
        ensures { (ground_delays phase_delays : List ℕ) (takes : List (List ℕ)) → StandsFor ground_delays phase_delays takes self.old →
            StandsFor ground_delays phase_delays [] self.new }
    {
        self.runs = [[0; 8]; 5];
    }
}
