//! A sample of the used channels.
ghost use Rattle.std.specs.Prelude.{◌≡◌};
ghost use Rattle.relay_num.specs.Bounds.{AllBelow, value_bound};
ghost use Rattle.sample_stream.specs.Samples.{is_fit, is_good, used_values, sample_from};

use sv_frame::Channel;

/// The values of the lanes IA, IB, IC, IN, UA, UB, UC and UN, currents in mA and voltages in units of
/// 10 mV, and whether they can be used. IN and UN aren't used, and their lanes are 0.
#[derive(Clone, Copy, Debug, PartialEq, Eq)]
pub struct Sample {
    pub values: [i64; 8],
    pub good: bool,
}

fn is_fit(c: Channel, mask: u32) -> bool
    ensures { result ≡ is_fit mask c }
{
    (c.quality & mask == 0) & (c.value.unsigned_abs() < 1 << 28)
}

fn is_good(channels: &[Channel; 8], mask: u32, synch: u8, synch_min: u8) -> bool
    ensures { result ≡ is_good mask synch_min synch channels.now }
{
    let [ia, ib, ic, _, ua, ub, uc, _] = *channels;
    let voltages = is_fit(ua, mask) & (is_fit(ub, mask) & is_fit(uc, mask));
    let currents = is_fit(ia, mask) & (is_fit(ib, mask) & (is_fit(ic, mask) & voltages));
    (synch >= synch_min) & currents
}

fn used_values(channels: &[Channel; 8]) -> [i64; 8]
    ensures { result ≡ used_values channels.now }
{
    let value = |c: Channel| i64::from(c.value);
    let [ia, ib, ic, _, ua, ub, uc, _] = *channels;
    [
        value(ia),
        value(ib),
        value(ic),
        0,
        value(ua),
        value(ub),
        value(uc),
        0,
    ]
}

/// The sample of a data set's channels.
///
/// It is good where each used channel has no quality bit of `mask` and a value below 2^28 in size,
/// and `synch`, the state of the clock, is at least `synch_min`. Where it isn't good all its values
/// are 0.
pub fn sample_of(channels: &[Channel; 8], mask: u32, synch: u8, synch_min: u8) -> Sample
    ensures sample { result ≡ sample_from mask synch_min synch channels.now }
    ensures small { AllBelow result.values value_bound }
{
    if !is_good(channels, mask, synch, synch_min) {
        return Sample {
            values: [0; 8],
            good: false,
        };
    }
    Sample {
        values: used_values(channels),
        good: true,
    }
}
