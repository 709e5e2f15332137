//! A trip's fault, as it is measured a cycle behind the trip.
ghost use Rattle.std.specs.Prelude.{◌≡◌, ◌<◌, ◌^◌, Some};
ghost use Rattle.std.specs.List.{All};
ghost use Rattle.std.specs.Option.{ForSome, option_map, option_and_then};
ghost use Rattle.relay_num.specs.Bounds.{phasor_bound, loop_voltage_bound, loop_current_bound, reach_bound};
ghost use Rattle.relay_num.specs.Numbers.{IsBelow};
ghost use Rattle.relay_settings.specs.Settings.{plain_line};
ghost use Rattle.line_relay.specs.Measured.{measured};
ghost use Rattle.fault_locate.specs.Quotients.{IsLimited};
ghost use Rattle.fault_locate.specs.Distances.{takagi_distance};
ghost use Rattle.fault_locate.specs.LocateTexts.{IsPrintableLocated};
ghost use Rattle.fault_locate.specs.KeptWaiting.{IsWaiting, IsModest, located_by_measured, measured_on_time};

use crate::distance::{by_reactance, by_takagi};
use crate::located::Located;
use crate::pairs::{Pair, loop_pair};
use crate::waiting::Waiting;
use event_record::At;
use relay_num::Cx;
use relay_settings::LineSettings;

/// What is told of a trip at a sample at least a cycle of `n` numbers behind it, whose phasors these are where it is
/// ready. The distances are there exactly a cycle behind the trip alone.
pub fn measure(
    settings: &LineSettings,
    n: u32,
    at: At,
    trip: Waiting,
    phasors: &Option<[Cx; 8]>,
) -> Located
    requires settings { IsModest (plain_line settings.now) }
    requires nanos { at.nanos < 10 ^ 9 }
    requires trip { IsWaiting trip }
    requires phasors { ForSome phasors.now (All (λ p. IsBelow p phasor_bound)) }
    ensures value { result ≡ located_by_measured (plain_line settings.now) at trip (measured_on_time n at.number trip (option_map measured phasors.now)) }
    ensures printable { IsPrintableLocated result }
{
    match phasors {
        Some(phasors) if at.number.saturating_sub(trip.number) == u64::from(n) => {
            located(settings, at, trip, phasors)
        }
        _ => Located {
            at,
            lp: trip.lp,
            distance: None,
            takagi: None,
        },
    }
}

/// The same at a ready sample a cycle behind the trip.
fn located(settings: &LineSettings, at: At, trip: Waiting, phasors: &[Cx; 8]) -> Located
    requires settings { IsModest (plain_line settings.now) }
    requires nanos { at.nanos < 10 ^ 9 }
    requires trip { IsWaiting trip }
    requires phasors { All (λ p. IsBelow p phasor_bound) phasors.now }
    ensures value { result ≡ located_by_measured (plain_line settings.now) at trip (Some (measured phasors.now)) }
    ensures printable { IsPrintableLocated result }
{
    let pair = loop_pair(settings, phasors, trip.lp);
    let line = Cx {
        re: settings.line_r,
        im: settings.line_x,
    };
    Located {
        at,
        lp: trip.lp,
        distance: by_reactance(pair.u, pair.i, settings.line_x),
        takagi: takagi_of(pair, trip.before, line),
    }
}

/// The distance by Takagi's method, where the current before is known.
fn takagi_of(pair: Pair, before: Option<Cx>, line: Cx) -> Option<i64>
    requires u { IsBelow pair.u loop_voltage_bound }
    requires i { IsBelow pair.i loop_current_bound }
    requires before { ForSome before (λ i. IsBelow i loop_current_bound) }
    requires line { IsBelow line reach_bound }
    ensures value { result ≡ option_and_then (λ i. takagi_distance pair.u pair.i i line) before }
    ensures size { ForSome result IsLimited }
{
    match before {
        Some(before) => by_takagi(pair.u, pair.i, before, line),
        None => None,
    }
}
