//! What is told and published of a sample.
ghost use Rattle.std.specs.Prelude.{◌≡◌, ◌<◌, ◌^◌};
ghost use Rattle.line_relay.specs.Shown.{facts_shown, nothing};
ghost use Rattle.line_relay.specs.Points.{points_of, starts, zones_mask, has_some};

use goose_publish::Points;

/// The facts of the last taken sample from which the differences are told. A mask has the loops of a zone.
#[derive(Clone, Copy, PartialEq, Eq, Debug)]
pub struct Shown {
    /// A whole cycle of taken and good samples ends here.
    pub ready: bool,
    /// A power swing blocks.
    pub swing: bool,
    /// A fuse counts as blown.
    pub fuse: bool,
    /// The loops inside each zone.
    pub inside: [u8; 5],
    /// The loops in which each zone operates.
    pub operate: [u8; 5],
}

impl Shown {
    /// Nothing holds before the first sample.
    pub fn new() -> Shown
        ensures { result ≡ nothing }
    {
        Shown {
            ready: false,
            swing: false,
            fuse: false,
            inside: [0; 5],
            operate: [0; 5],
        }
    }
}

/// The published data set of a sample at which these facts hold, with the trip.
pub fn points_of(shown: &Shown, trip: bool) -> Points
    ensures points { result ≡ points_of (facts_shown shown.now trip) }
    ensures few { result.zones < 2 ^ 5 }
{
    Points {
        trip,
        start: starts(&shown.inside),
        swing: shown.swing,
        fuse: shown.fuse,
        zones: zones_mask(&shown.operate),
        ready: shown.ready,
    }
}

/// Whether some zone has a loop in its mask.
fn starts(masks: &[u8; 5]) -> bool
    ensures { result ≡ starts masks.now }
{
    let [first, second, third, fourth, fifth] = *masks;
    first != 0 || second != 0 || third != 0 || fourth != 0 || fifth != 0
}

/// The mask of the zones that have a loop in theirs, the lowest bit for the first.
fn zones_mask(masks: &[u8; 5]) -> u8
    ensures mask { result ≡ zones_mask masks.now }
    ensures few { result < 2 ^ 5 }
{
    let [first, second, third, fourth, fifth] = *masks;
    u8::from(first != 0)
        + 2 * u8::from(second != 0)
        + 4 * u8::from(third != 0)
        + 8 * u8::from(fourth != 0)
        + 16 * u8::from(fifth != 0)
}
