//! The configuration: seventeen lines.
ghost use Rattle.std.specs.Prelude.{◌≡◌, ℕ, List, [], ◌∷◌, ◌++◌, ◌≤◌, ◌⊎◌, length, decimal, IfSome, IsSomeAnd, IsTrue, ◌↔◌};
ghost use Rattle.std.specs.List.{AllByRecursion};
ghost use Rattle.comtrade_read.specs.Moments.{Moment, IsMoment, moment_text};
ghost use Rattle.comtrade_read.specs.Channels.{channels_text, form_text};
ghost use Rattle.comtrade_read.specs.Configurations.{Configuration, IsConfiguration, IsName, IsNominal, IsRate, IsCount, configuration_text};

use crate::field::{after, field};
use crate::moment::read_moment;
use crate::number::read_number;

/// Samples a second, and how many there are.
#[derive(Clone, Copy)]
pub(crate) struct Samples {
    pub(crate) rate: u32,
    pub(crate) count: usize,
}

/// What a configuration says of the data.
pub(crate) fn read_config(text: &[u8]) -> Option<Samples>
    ensures sound { IfSome result (λ s. (c : Configuration) × IsConfiguration c × (c.rate ≡ s.rate) × (c.count ≡ s.count) × (text.now ≡ configuration_text c)) }
    ensures complete { (c : Configuration) → IsConfiguration c → text.now ≡ configuration_text c →
        IsSomeAnd result (λ s. (s.rate ≡ c.rate) × (s.count ≡ c.count)) }
{
    let nominal = read_station(text)?;
    let rate = read_nominal(nominal)?;
    let (samples, first) = read_samples(rate)?;
    let trip = read_moment(first)?;
    let form = read_moment(trip)?;
    if is_form(form) { Some(samples) } else { None }
}

/// Whether these are the last two lines.
#[tactic(auto, unfolding(crate::specs::Channels::form_text))]
fn is_form(text: &[u8]) -> bool
    ensures { IsTrue result ↔ (text.now ≡ form_text) }
{
    text == b"ASCII\r\n1\r\n".as_slice()
}

/// The bytes behind a name, and the lines of the channels.
fn read_station<'a>(text: &'a [u8]) -> Option<&'a [u8]>
    ensures sound { IfSome result (λ left. (name : List ℕ) × IsName name × (text.now ≡ name ++ 44 ∷ (channels_text ++ left.now))) }
    ensures complete { (name rest : List ℕ) → IsName name → text.now ≡ name ++ 44 ∷ (channels_text ++ rest) →
        IsSomeAnd result (λ left. left.now ≡ rest) }
{
    let (name, rest) = field(text, b',')?;
    if is_name(name) {
        read_channels(rest)
    } else {
        None
    }
}

/// Whether these are 1 to 16 printable bytes without a blank.
fn is_name(bytes: &[u8]) -> bool
    ensures { IsTrue result ↔ ((1 ≤ length bytes.now) × (length bytes.now ≤ 16) × AllByRecursion (λ b. (33 ≤ b) × (b ≤ 126)) bytes.now) }
{
    !bytes.is_empty() && bytes.len() <= 16 && bytes.iter().all(|b| *b >= 0x21 && *b <= 0x7E)
}

/// The bytes behind the lines of the channels.
fn read_channels<'a>(text: &'a [u8]) -> Option<&'a [u8]>
    ensures sound { IfSome result (λ left. text.now ≡ channels_text ++ left.now) }
    ensures complete { (rest : List ℕ) → text.now ≡ channels_text ++ rest → IsSomeAnd result (λ left. left.now ≡ rest) }
{
    after(
        text,
        b"relay,1999\r\n\
          8,6A,2D\r\n\
          1,IA,A,,mA,1,0,0,-268435455,268435455,1,1,P\r\n\
          2,IB,B,,mA,1,0,0,-268435455,268435455,1,1,P\r\n\
          3,IC,C,,mA,1,0,0,-268435455,268435455,1,1,P\r\n\
          4,UA,A,,mV,10,0,0,-268435455,268435455,1,1,P\r\n\
          5,UB,B,,mV,10,0,0,-268435455,268435455,1,1,P\r\n\
          6,UC,C,,mV,10,0,0,-268435455,268435455,1,1,P\r\n\
          1,GOOD,,,0\r\n\
          2,TRIP,,,0\r\n",
    )
}

/// The bytes behind the nominal frequency, and the line that says that there is one rate.
fn read_nominal<'a>(text: &'a [u8]) -> Option<&'a [u8]>
    ensures sound { IfSome result (λ left. (n : ℕ) × IsNominal n × (text.now ≡ decimal n ++ 13 ∷ 10 ∷ 49 ∷ 13 ∷ 10 ∷ left.now)) }
    ensures complete { (n : ℕ) (rest : List ℕ) → IsNominal n → text.now ≡ decimal n ++ 13 ∷ 10 ∷ 49 ∷ 13 ∷ 10 ∷ rest →
        IsSomeAnd result (λ left. left.now ≡ rest) }
{
    let (nominal, rest) = read_number(text, b'\r')?;
    if is_nominal(nominal) {
        after(rest, b"\n1\r\n")
    } else {
        None
    }
}

/// The rate and the count, and the bytes behind their line.
fn read_samples<'a>(text: &'a [u8]) -> Option<(Samples, &'a [u8])>
    ensures sound { IfSome result (λ r. IsRate r.0.rate × IsCount r.0.count × (text.now ≡ decimal r.0.rate ++ 44 ∷ (decimal r.0.count ++ 13 ∷ 10 ∷ r.1.now))) }
    ensures complete { (rate count : ℕ) (rest : List ℕ) → IsRate rate → IsCount count → text.now ≡ decimal rate ++ 44 ∷ (decimal count ++ 13 ∷ 10 ∷ rest) →
        IsSomeAnd result (λ r. (r.0.rate ≡ rate) × (r.0.count ≡ count) × (r.1.now ≡ rest)) }
{
    let (rate, rest) = read_number(text, b',')?;
    let (count, rest) = read_number(rest, b'\r')?;
    let samples = samples_of(rate, count)?;
    let behind = after(rest, b"\n")?;
    Some((samples, behind))
}

/// The rate and the count, where they are in their ranges.
fn samples_of(rate: u64, count: u64) -> Option<Samples>
    ensures sound { IfSome result (λ s. IsRate rate × IsCount count × (s.rate ≡ rate) × (s.count ≡ count)) }
    ensures complete { IsRate rate → IsCount count → IsSomeAnd result (λ s. (s.rate ≡ rate) × (s.count ≡ count)) }
{
    if !is_rate(rate) || count < 1 || count > 577 {
        return None;
    }
    Some(Samples {
        rate: rate as u32,
        count: count as usize,
    })
}

/// Whether this is 50 or 60 Hz.
fn is_nominal(number: u64) -> bool
    ensures { IsTrue result ↔ IsNominal number }
{
    number == 50 || number == 60
}

/// Whether this is one of the two rates.
fn is_rate(number: u64) -> bool
    ensures { IsTrue result ↔ IsRate number }
{
    number == 4800 || number == 4000
}
