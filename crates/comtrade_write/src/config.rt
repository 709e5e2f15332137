//! The lines of the configuration.
ghost use Rattle.std.specs.Prelude.{◌≡◌, ◌≤◌, ◌<◌, ◌-◌, [], length, map, slice_get, Some};
ghost use Rattle.comtrade_read.specs.Configurations.{configuration_lines, station_text, samples_text};
ghost use Rattle.comtrade_write.specs.ConfigTexts.{config_lines, configuration_of, plain_byte};

use crate::covered::Span;
use crate::moment::put_moment;
use crate::numbers::put_number;
use arrayvec::ArrayVec;
use relay_num::put_bytes;
use relay_settings::Common;

/// The i-th line of the configuration of the line with this name, `i` from 1 to 17, with its end.
pub(crate) fn config_text(name: &[u8], common: &Common, span: &Span, i: usize) -> ArrayVec<u8, 160>
    requires name { length name.now ≤ 16 }
    requires rate { (1 < common.now.rate) × (common.now.rate ≤ 4800) }
    requires nominal { common.now.nominal ≤ 60 }
    requires count { span.now.count ≤ 577 }
    requires low { 1 ≤ i }
    requires high { i ≤ 17 }
    ensures { slice_get (config_lines name.now common.now span.now) (i - 1) ≡ Some result.items }
{
    let mut out = ArrayVec::new();
    put_text(&mut out, name, common, span, i);
    put_bytes(&mut out, b"\r\n");
    out
}

/// Appends the i-th line without its end. Most lines are the same in each configuration.
fn put_text(out: &mut ArrayVec<u8, 160>, name: &[u8], common: &Common, span: &Span, i: usize)
    requires name { length name.now ≤ 16 }
    requires rate { (1 < common.now.rate) × (common.now.rate ≤ 4800) }
    requires nominal { common.now.nominal ≤ 60 }
    requires count { span.now.count ≤ 577 }
    requires low { 1 ≤ i }
    requires high { i ≤ 17 }
    requires room { out.old.items ≡ [] }
    ensures text { slice_get (configuration_lines (configuration_of name.now common.now span.now)) (i - 1) ≡ Some out.new.items }
    ensures long { length out.new.items ≤ 50 }
{
    match i {
        1 => put_station(out, name),
        2 => put_bytes(out, b"8,6A,2D"),
        3 => put_bytes(out, b"1,IA,A,,mA,1,0,0,-268435455,268435455,1,1,P"),
        4 => put_bytes(out, b"2,IB,B,,mA,1,0,0,-268435455,268435455,1,1,P"),
        5 => put_bytes(out, b"3,IC,C,,mA,1,0,0,-268435455,268435455,1,1,P"),
        6 => put_bytes(out, b"4,UA,A,,mV,10,0,0,-268435455,268435455,1,1,P"),
        7 => put_bytes(out, b"5,UB,B,,mV,10,0,0,-268435455,268435455,1,1,P"),
        8 => put_bytes(out, b"6,UC,C,,mV,10,0,0,-268435455,268435455,1,1,P"),
        9 => put_bytes(out, b"1,GOOD,,,0"),
        10 => put_bytes(out, b"2,TRIP,,,0"),
        11 => put_number(out, u64::from(common.nominal)),
        12 => put_bytes(out, b"1"),
        13 => put_samples(out, common.rate, span.count),
        14 => put_moment(out, common, span.first),
        15 => put_moment(out, common, span.trip),
        16 => put_bytes(out, b"ASCII"),
        _ => put_bytes(out, b"1"),
    }
}

/// Appends the line with the station's name and the revision year of the standard.
fn put_station(out: &mut ArrayVec<u8, 160>, name: &[u8])
    requires name { length name.now ≤ 16 }
    requires room { out.old.items ≡ [] }
    ensures bytes { out.new.items ≡ station_text (map plain_byte name.now) }
    ensures long { length out.new.items ≤ 27 }
{
    for byte in name {
        out.push(without_comma(*byte));
    }
    put_bytes(out, b",relay,1999");
}

/// The byte, or an underscore for a comma.
fn without_comma(byte: u8) -> u8
    ensures { result ≡ plain_byte byte }
{
    if byte == b',' { b'_' } else { byte }
}

/// Appends the rate and the number of samples.
fn put_samples(out: &mut ArrayVec<u8, 160>, rate: u32, count: usize)
    requires rate { rate ≤ 4800 }
    requires count { count ≤ 577 }
    requires room { out.old.items ≡ [] }
    ensures bytes { out.new.items ≡ samples_text rate count }
    ensures long { length out.new.items ≤ 19 }
{
    put_number(out, u64::from(rate));
    out.push(b',');
    put_number(out, count as u64);
}
