//! A loop's voltage and current.
ghost use Rattle.std.specs.Prelude.{◌≡◌, ◌<◌, ◌+◌, ◌^◌};
ghost use Rattle.std.specs.List.{All};
ghost use Rattle.relay_num.specs.Bounds.{phasor_bound, loop_voltage_bound, loop_current_bound};
ghost use Rattle.relay_num.specs.Numbers.{IsBelow};
ghost use Rattle.relay_settings.specs.Settings.{plain_line};
ghost use Rattle.loop_impedance.specs.Loops.{item, ArePhasesBelow, AreLoopsBelow};
ghost use Rattle.line_relay.specs.Measured.{measured};
ghost use Rattle.line_relay.specs.Inside.{k0_of, loop_voltage, loop_current};
ghost use Rattle.fault_locate.specs.KeptWaiting.{IsModest, current_by};

use loop_impedance::{LoopPairs, loops};
use relay_num::Cx;
use relay_settings::LineSettings;

/// Voltage, in counts of 10 mV, and current, in thousandths of 1 mA, of a loop.
#[derive(Clone, Copy)]
pub struct Pair {
    pub u: Cx,
    pub i: Cx,
}

/// Those of a loop, by the phasors of IA, IB, IC, IN, UA, UB, UC and UN.
pub fn loop_pair(settings: &LineSettings, phasors: &[Cx; 8], lp: u8) -> Pair
    requires settings { IsModest (plain_line settings.now) }
    requires phasors { All (λ p. IsBelow p phasor_bound) phasors.now }
    requires lp { lp < 6 }
    ensures u { result.u ≡ loop_voltage (measured phasors.now) lp }
    ensures i { result.i ≡ loop_current (plain_line settings.now) (measured phasors.now) lp }
    ensures u_size { IsBelow result.u loop_voltage_bound }
    ensures i_size { IsBelow result.i loop_current_bound }
{
    let [ia, ib, ic, _, ua, ub, uc, _] = *phasors;
    let pairs = loops(&[ua, ub, uc], &[ia, ib, ic], k0(settings));
    pair_of(&pairs, lp)
}

/// The current of a loop, by the phase currents.
pub fn loop_current(settings: &LineSettings, currents: &[Cx; 3], lp: u8) -> Cx
    requires settings { IsModest (plain_line settings.now) }
    requires currents { ArePhasesBelow currents.now phasor_bound }
    requires lp { lp < 6 }
    ensures value { result ≡ current_by (plain_line settings.now) currents.now lp }
    ensures size { IsBelow result loop_current_bound }
{
    let none = Cx { re: 0, im: 0 };
    let pairs = loops(&[none, none, none], currents, k0(settings));
    pair_of(&pairs, lp).i
}

fn k0(settings: &LineSettings) -> Cx
    ensures { result ≡ k0_of (plain_line settings.now) }
{
    Cx {
        re: settings.k0_re,
        im: settings.k0_im,
    }
}

/// The pair of one of the loops.
fn pair_of(pairs: &LoopPairs, lp: u8) -> Pair
    requires lp { lp < 6 }
    requires u_size { AreLoopsBelow pairs.now.u loop_voltage_bound }
    requires i_size { AreLoopsBelow pairs.now.i loop_current_bound }
    ensures u { result.u ≡ item lp pairs.now.u }
    ensures i { result.i ≡ item lp pairs.now.i }
    ensures u_small { IsBelow result.u loop_voltage_bound }
    ensures i_small { IsBelow result.i loop_current_bound }
{
    let place = usize::from(lp);
    Pair {
        u: pairs.u[place],
        i: pairs.i[place],
    }
}
