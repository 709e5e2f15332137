//! Sampled values of a line before, in and after a fault.
ghost use Rattle.std.specs.Prelude.{◌≡◌, ◌<◌, ◌⊎◌};

use relay_num::wave;

/// The value and the quality word of a channel.
pub type Channel = (i32, u32);

/// Peaks are whole multiples of the sine table.
#[derive(Clone, Copy, PartialEq, Eq, Debug)]
pub enum Signal {
    /// Three voltages of 500 times the table, and no current.
    Healthy,
    /// Phase A to ground at half of the reach: UA falls to a half, and IA lags it by a quarter of a cycle.
    Fault,
    /// All three phases at the line's beginning: the fault's current in each, and no voltage.
    Close,
    /// The fault's current, and no voltage.
    Dead,
    /// The six used channels at the greatest value.
    Greatest,
    /// As in the fault, but UB has a bit of bad quality.
    BadQuality,
    /// Some value of at most 2^26 in size in each channel, which no two counters share.
    Noise,
}

/// The counters from the first on to before the second, with this signal.
pub type Span = (u16, u16, Signal);

/// A ground fault from 1464 to 3863, whose trip by a zone that trips at once stands from 1525 to 4376.
pub const GROUND_FAULT: [Span; 3] = [
    (0, 1464, Signal::Healthy),
    (1464, 3864, Signal::Fault),
    (3864, 4800, Signal::Healthy),
];

/// Multiples of the sine and of the cosine so many samples behind this counter's, of `n` a cycle.
pub fn wave_value(n: u32, counter: u16, later: u32, sines: i32, cosines: i32) -> i32
    requires n { (n ≡ 80) ⊎ (n ≡ 96) }
    requires later { later < n }
{
    let (cosine, sine) = wave(n, (u32::from(counter) + later) % n);
    sines
        .wrapping_mul(sine as i32)
        .wrapping_add(cosines.wrapping_mul(cosine as i32))
}

/// `scale` times the cosine so many samples behind this counter's.
fn cosine(scale: i32, counter: u16, later: u32) -> i32
    requires { later < 96 }
{
    wave_value(96, counter, later, 0, scale)
}

/// `scale` times the sine so many samples behind this counter's.
fn sine(scale: i32, counter: u16, later: u32) -> i32
    requires { later < 96 }
{
    wave_value(96, counter, later, scale, 0)
}

fn noise(counter: u16, channel: u32) -> Channel {
    let seed = u32::from(counter).wrapping_mul(8).wrapping_add(channel);
    let word = seed.wrapping_mul(2_654_435_761).wrapping_add(40_503);
    (((word >> 5) as i32) - (1 << 26), 0)
}

/// IA, IB, IC, UA, UB and UC of a line whose channels follow the sine table.
fn six(signal: Signal, counter: u16) -> [i32; 6] {
    let ub = cosine(500, counter, 64);
    let uc = cosine(500, counter, 32);
    let ia = sine(250, counter, 0);
    match signal {
        Signal::Healthy => [0, 0, 0, cosine(500, counter, 0), ub, uc],
        Signal::Close => [ia, sine(250, counter, 64), sine(250, counter, 32), 0, 0, 0],
        Signal::Dead => [ia, 0, 0, 0, 0, 0],
        _ => [ia, 0, 0, cosine(250, counter, 0), ub, uc],
    }
}

/// IA, IB, IC, IN, UA, UB, UC and UN. IN is marked as computed.
pub fn channels_of(signal: Signal, counter: u16) -> [Channel; 8] {
    let most = 268_435_455;
    let [ia, ib, ic, ua, ub, uc] = match signal {
        Signal::Greatest => [most; 6],
        _ => six(signal, counter),
    };
    let mark = if signal == Signal::BadQuality { 1 } else { 0 };
    let residual = match signal {
        Signal::Greatest => 0,
        _ => ia.wrapping_add(ib).wrapping_add(ic),
    };
    match signal {
        Signal::Noise => [
            noise(counter, 0),
            noise(counter, 1),
            noise(counter, 2),
            noise(counter, 3),
            noise(counter, 4),
            noise(counter, 5),
            noise(counter, 6),
            noise(counter, 7),
        ],
        _ => [
            (ia, 0),
            (ib, 0),
            (ic, 0),
            (residual, 0x2000),
            (ua, 0),
            (ub, mark),
            (uc, 0),
            (0, 0),
        ],
    }
}

/// The data set of these channels.
pub fn data_set(channels: &[Channel; 8]) -> [u8; 64] {
    let mut data = [0; 64];
    for place in 0..8 {
        let (value, quality) = channels[place];
        let at = place * 8;
        data[at..at + 4].copy_from_slice(&value.to_be_bytes());
        data[at + 4..at + 8].copy_from_slice(&quality.to_be_bytes());
    }
    data
}

/// The data set of this signal at this counter.
pub fn data_of(signal: Signal, counter: u16) -> [u8; 64] {
    data_set(&channels_of(signal, counter))
}
