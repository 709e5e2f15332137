//! A cheap test that no current is near a threshold: most of the time none is.
ghost use Rattle.std.specs.Prelude.{◌≡◌, ◌≤◌, ◌⊎◌};
ghost use Rattle.std.specs.Option.{option_map};
ghost use Rattle.line_relay.specs.Measured.{measured};
ghost use Rattle.line_relay.specs.FarBelow.{greater, size_of, greatest_by, is_far_below};

use relay_num::Cx;

/// The greatest part of the three phase currents in size, of the phasors of IA, IB, IC and others, in mA; 0 where the
/// sample isn't ready.
#[tactic(auto, unfolding(crate::specs::Measured::measured))]
pub fn greatest_part(phasors: &Option<[Cx; 8]>) -> u64
    ensures { result ≡ greatest_by (option_map measured phasors.now) }
{
    match phasors {
        Some([a, b, c, ..]) => greater(size_of(a), greater(size_of(b), size_of(c))),
        None => 0,
    }
}

/// Whether parts of at most this size are so far below `least` counts rms that neither a current nor a difference of
/// two comes to it. `n` is the samples of a cycle, 80 or 96.
pub fn is_far_below(greatest: u64, n: u32, least: u32) -> bool
    requires n { (n ≡ 80) ⊎ (n ≡ 96) }
    requires least { least ≤ 100000000 }
    ensures { result ≡ is_far_below greatest n least }
{
    greatest < u64::from(n) * u64::from(least) / 129
}

/// The size of the greater part.
fn size_of(p: &Cx) -> u64
    ensures { result ≡ size_of p.now }
{
    greater(p.re.unsigned_abs(), p.im.unsigned_abs())
}

fn greater(a: u64, b: u64) -> u64
    ensures { result ≡ greater a b }
{
    if a < b { b } else { a }
}
