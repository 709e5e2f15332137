//! The samples that the record of the k-th trip covers, as far as they have come.
ghost use Rattle.std.specs.Prelude.{◌≡◌, ◌≤◌, ◌<◌, ◌+◌, ◌*◌, ◌^◌, ◌++◌, [], ◌∷◌, true, ◌&&◌, not, ◌==◌, if◌then◌else◌};
ghost use Rattle.circular_buffer.specs.Buffer.{keep_last};
ghost use Rattle.std.specs.Option.{ForSome};
ghost use Rattle.relay_num.specs.Bounds.{is_cycle};
ghost use Rattle.comtrade_write.specs.Kept.{forgotten, from_number, trip_with, is_within};

use crate::covered::{Recorded, Span};
use circular_buffer::HeapCircularBuffer;
use relay_num::NoMemory;
use std::alloc::Global;

/// The taken samples of the last two cycles until the k-th trip begins; from then on those that its record covers.
#[derive(Drop)]
pub(crate) struct Window {
    /// Samples a cycle.
    n: u32,
    k: u64,
    ring: HeapCircularBuffer<Recorded>,
    /// How many trips have begun.
    trips: u64,
    /// Whether the trip stands at the last sample.
    stands: bool,
    /// The number of the sample at which the k-th trip began.
    trip: Option<u64>,
    ghost cycle: { is_cycle n ≡ true },
    ghost some: { 1 ≤ k },
    ghost room: { ring.capacity ≤ 577 },
    ghost near: { ForSome trip (λ number. number < 2 ^ 61) },
}

impl Window {
    ghost use Rattle.std.specs.Prelude.{ℕ, ◌≡◌, ◌≤◌, ◌<◌, ◌+◌, ◌^◌, IfOk, List, [], ◌∷◌, slice_get, true};
    ghost use Rattle.std.specs.Option.{ForSome, option_copied};
    ghost use Rattle.relay_num.specs.Bounds.{is_cycle};
    ghost use Rattle.sample_windows.specs.Numbered.{Rises};
    ghost use Rattle.comtrade_write.specs.declared.covered.Recorded.{Recorded};
    ghost use Rattle.comtrade_write.specs.Covered.{number_of_recorded};
    ghost use Rattle.comtrade_write.specs.KeptWindow.{StandsFor, count_by, span_by};

    /// A window that has taken nothing, at `n` samples a cycle (80 or 96). `NoMemory` comes only where the
    /// allocator has no room for the six cycles of samples and one that a record covers at most.
    pub fn new(alloc: Global, n: u32, k: u32) -> Result<Window, NoMemory>
        requires n { is_cycle n ≡ true }
        requires k { 1 ≤ k }
        ensures stands { IfOk result (λ window. StandsFor n k [] window) }
        ensures none { IfOk result (λ window. window.trips ≡ 0) }
    {
        match HeapCircularBuffer::with_capacity(alloc, 6 * n as usize + 1) {
            Ok(ring) => Ok(Window {
                n,
                k: u64::from(k),
                ring,
                trips: 0,
                stands: false,
                trip: None,
            }),
            Err(_) => Err(NoMemory),
        }
    }

    /// Takes the next taken sample, whose number is above the last.
    pub fn take(&mut self, next: Recorded)
        requires number { next.number < 2 ^ 61 }
        requires trips { self.old.trips < 2 ^ 60 }
        ensures after { (n k : ℕ) (older : List Recorded) → Rises number_of_recorded (next ∷ older) → StandsFor n k older self.old →
            StandsFor n k (next ∷ older) self.new }
        ensures trips { self.new.trips ≤ self.old.trips + 1 }
    {
        let cycle = u64::from(self.n);
        let begins = begins(self.stands, next.trip);
        let trips = if begins { self.trips + 1 } else { self.trips };
        let trip = trip_with(self.trip, begins, trips, self.k, next.number);
        forget(
            &mut self.ring,
            self.trip,
            next.number.saturating_sub(2 * cycle),
        );
        keep(&mut self.ring, next, is_within(trip, cycle, next.number));
        self.trips = trips;
        self.stands = next.trip;
        self.trip = trip;
    }

    /// Whether the trip stands at the last sample.
    pub fn stands(&self) -> bool
        ensures { result ≡ self.now.stands }
    {
        self.stands
    }

    /// How many trips have begun.
    pub fn trips(&self) -> u64
        ensures { result ≡ self.now.trips }
    {
        self.trips
    }

    /// How many samples the record covers so far; none before its trip.
    pub fn count(&self) -> usize
        ensures count { result ≡ count_by self.now.trip self.now.ring.items }
        ensures few { result ≤ 577 }
    {
        if self.trip.is_some() {
            self.ring.len()
        } else {
            0
        }
    }

    /// What the record covers so far; None before its trip.
    pub fn span(&self) -> Option<Span>
        ensures span { result ≡ span_by self.now.trip self.now.ring.items }
        ensures few { ForSome result (λ span. span.count ≤ 577) }
    {
        let trip = self.trip?;
        let first = self.ring.front()?;
        Some(Span {
            first: first.number,
            trip,
            count: self.ring.len(),
        })
    }

    /// The kept sample at this place, the oldest at 0.
    pub fn get(&self, place: usize) -> Option<&Recorded>
        ensures { option_copied result ≡ slice_get self.now.ring.items place }
    {
        self.ring.get(place)
    }
}

/// Whether the trip begins, by whether it stood before and stands now.
fn begins(before: bool, now: bool) -> bool
    ensures { result ≡ (now && not before) }
{
    now && !before
}

/// The number at which the k-th trip began: what was known before, or else this number where it begins there as the
/// k-th.
fn trip_with(before: Option<u64>, begins: bool, trips: u64, k: u64, number: u64) -> Option<u64>
    ensures { result ≡ trip_with before (begins && (trips == k)) number }
{
    if before.is_some() {
        return before;
    }
    if begins && trips == k {
        Some(number)
    } else {
        None
    }
}

/// Until the trip, forgets the first samples as far as their numbers are below `low`.
fn forget(ring: &mut HeapCircularBuffer<Recorded>, trip: Option<u64>, low: u64)
    ensures items { ring.new.items ≡ forgotten trip low ring.old.items }
    ensures room { ring.new.capacity ≡ ring.old.capacity }
{
    match trip {
        Some(_) => {}
        None => forget_before(ring, low),
    }
}

/// Forgets the first samples as far as their numbers are below `low`.
fn forget_before(ring: &mut HeapCircularBuffer<Recorded>, low: u64)
    ensures items { ring.new.items ≡ from_number low ring.old.items }
    ensures room { ring.new.capacity ≡ ring.old.capacity }
{
    while let Some(first) = ring.front() {
        if first.number >= low {
            return;
        }
        ring.pop_front();
    }
}

/// Keeps the sample behind the others, where this is so. A full ring gives up its first.
fn keep(ring: &mut HeapCircularBuffer<Recorded>, next: Recorded, so: bool)
    ensures items { ring.new.items ≡ (if so then keep_last ring.old.capacity (ring.old.items ++ next ∷ []) else ring.old.items) }
    ensures room { ring.new.capacity ≡ ring.old.capacity }
{
    if so {
        ring.push_back(next);
    }
}

/// Whether a sample with this number is kept: until the trip each is, and then those of four cycles.
fn is_within(trip: Option<u64>, cycle: u64, number: u64) -> bool
    requires trip { ForSome trip (λ began. began < 2 ^ 61) }
    requires cycle { cycle ≤ 96 }
    ensures { result ≡ is_within trip cycle number }
{
    match trip {
        Some(began) => number <= began + 4 * cycle,
        None => true,
    }
}
