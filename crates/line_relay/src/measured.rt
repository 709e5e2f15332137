//! What is formed of the phasors once a ready sample.
ghost use Rattle.std.specs.Prelude.{◌≡◌, ◌^◌, ◌+◌};
ghost use Rattle.std.specs.List.{All};
ghost use Rattle.relay_num.specs.Numbers.{IsBelow};
ghost use Rattle.line_relay.specs.Measured.{measured};
ghost use Rattle.line_relay.specs.Sizes.{IsMeasured};

use relay_num::Cx;
use sequence_parts::{Sequence, parts};

/// The phases, and three times their symmetrical components: voltages in counts of 10 mV, currents in mA.
#[derive(Clone, Copy)]
pub struct Measured {
    /// UA, UB and UC.
    pub voltages: [Cx; 3],
    /// IA, IB and IC.
    pub currents: [Cx; 3],
    /// 3U0, 3U1 and 3U2.
    pub voltage: Sequence,
    /// 3I0, 3I1 and 3I2.
    pub current: Sequence,
}

/// What is formed of the phasors of IA, IB, IC, IN, UA, UB, UC and UN. Each caller asks for a part of it alone, and forms
/// no more where it is inlined.
#[inline(always)]
pub fn measure(phasors: &[Cx; 8]) -> Measured
    requires { All (λ p. IsBelow p (2 ^ 30 + 1)) phasors.now }
    ensures value { result ≡ measured phasors.now }
    ensures size { IsMeasured result }
{
    let [ia, ib, ic, _, ua, ub, uc, _] = *phasors;
    Measured {
        voltages: [ua, ub, uc],
        currents: [ia, ib, ic],
        voltage: parts(ua, ub, uc),
        current: parts(ia, ib, ic),
    }
}
