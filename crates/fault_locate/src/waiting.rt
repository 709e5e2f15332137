//! The trip that waits to be measured.
ghost use Rattle.std.specs.Prelude.{◌≡◌, ◌<◌};
ghost use Rattle.std.specs.Option.{ForSome, option_map};
ghost use Rattle.std.specs.List.{All};
ghost use Rattle.relay_num.specs.Bounds.{loop_current_bound};
ghost use Rattle.relay_num.specs.Numbers.{IsBelow};
ghost use Rattle.relay_settings.specs.Settings.{plain_line};
ghost use Rattle.event_record.specs.Printable.{IsPrintable};
ghost use Rattle.fault_locate.specs.KeptCurrents.{AreCurrents};
ghost use Rattle.fault_locate.specs.KeptWaiting.{IsWaiting, IsModest, current_by, waiting_by, due_at, left_at};
ghost use Rattle.fault_locate.specs.TripEvents.{first_loop_of};

use crate::pairs::loop_current;
use crate::trips::first_loop;
use event_record::Event;
use relay_num::Cx;
use relay_settings::LineSettings;

/// A trip whose fault is not yet located.
#[derive(Clone, Copy)]
pub struct Waiting {
    /// The number of its sample.
    pub number: u64,
    /// The loop that raised it.
    pub lp: u8,
    /// The loop's current two cycles before, where it is known, in thousandths of 1 mA.
    pub before: Option<Cx>,
}

/// The trip at this number, among whose events are the operations that raised it. `before` has the phase currents two
/// cycles before.
pub fn trip_of(
    settings: &LineSettings,
    number: u64,
    before: Option<[Cx; 3]>,
    events: &[Event],
) -> Option<Waiting>
    requires settings { IsModest (plain_line settings.now) }
    requires before { AreCurrents before }
    requires events { All IsPrintable events.now }
    ensures value { result ≡ waiting_by (plain_line settings.now) number before (first_loop_of settings.now.zones.items events.now) }
    ensures small { ForSome result IsWaiting }
{
    let Some(lp) = first_loop(settings.zones.as_slice(), events) else {
        return None;
    };
    Some(Waiting {
        number,
        lp,
        before: current_of(settings, before, lp),
    })
}

/// A loop's current, where the phase currents are known.
fn current_of(settings: &LineSettings, currents: Option<[Cx; 3]>, lp: u8) -> Option<Cx>
    requires settings { IsModest (plain_line settings.now) }
    requires currents { AreCurrents currents }
    requires lp { lp < 6 }
    ensures value { result ≡ option_map (λ i. current_by (plain_line settings.now) i lp) currents }
    ensures small { ForSome result (λ i. IsBelow i loop_current_bound) }
{
    match currents {
        Some(currents) => Some(loop_current(settings, &currents, lp)),
        None => None,
    }
}

/// The trip that waits, where it is to be measured at this number: the first taken one at least `n` numbers behind it.
/// It waits no longer then.
pub fn take_due(waiting: &mut Option<Waiting>, number: u64, n: u32) -> Option<Waiting>
    ensures due { result ≡ due_at n number waiting.old }
    ensures left { waiting.new ≡ left_at n number waiting.old }
{
    match *waiting {
        Some(trip) if number.saturating_sub(trip.number) >= u64::from(n) => {
            *waiting = None;
            Some(trip)
        }
        _ => None,
    }
}
