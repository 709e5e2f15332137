//! A window of samples whose numbers follow one another, in a ring, and the sums that slide along it.
ghost use Rattle.std.specs.Prelude.{ℕ, ◌≡◌, ◌+◌, ◌%◌, ◌<◌, ◌≤◌, ◌^◌, ◌⊎◌, ◌==◌, ◌++◌, ◌∷◌, if◌then◌else◌, []};
ghost use Rattle.circular_buffer.specs.Buffer.{keep_last};
ghost use Rattle.relay_num.specs.Bounds.{AllBelow, value_bound};
ghost use Rattle.cycle_phasor.specs.Sliding.{values_left};
ghost use Rattle.cycle_phasor.specs.Window.{IsSliding, window_with};

use crate::Slider;
use relay_num::Steps;
use sample_ring::History;
use std::sync::ledger::Ledger;

/// Takes the values at this number into the window and its sums. The window's run would go on with the number
/// `next`: another number begins a new run, and no values end the run. The window holds the newest values of the
/// run, at most a cycle of them, each below 2^28 in size. It is looked at once at most, for the values that leave.
#[inline(always)]
pub fn take_values<L: Ledger>(
    ring: &mut History<[i64; 8]>,
    slider: &mut Slider,
    next: u64,
    number: u64,
    values: Option<[i64; 8]>,
    steps: &mut Steps<L>,
)
    requires n { (slider.old.n ≡ 80) ⊎ (slider.old.n ≡ 96) }
    requires state { IsSliding slider.old.n next ring.old slider.old }
    requires small { AllBelow (values_left values) value_bound }
    ensures state { IsSliding slider.old.n (number + 1) ring.new slider.new }
    ensures items { ring.new.items ≡ window_with slider.old.n (number == next) values ring.old.items }
    ensures cost { steps.new ≤ steps.old + 1 }
{
    let Some(values) = values else {
        forget(ring, slider);
        return;
    };
    go_on(ring, slider, next, number);
    slide(ring, slider, number, &values, steps);
}

/// Takes the values of the number that follows the window's.
fn slide<L: Ledger>(
    ring: &mut History<[i64; 8]>,
    slider: &mut Slider,
    number: u64,
    values: &[i64; 8],
    steps: &mut Steps<L>,
)
    requires n { (slider.old.n ≡ 80) ⊎ (slider.old.n ≡ 96) }
    requires state { IsSliding slider.old.n number ring.old slider.old }
    requires values { AllBelow values.now value_bound }
    ensures state { IsSliding slider.old.n (number + 1) ring.new slider.new }
    ensures items { ring.new.items ≡ keep_last slider.old.n (ring.old.items ++ values.now ∷ []) }
    ensures cost { steps.new ≡ steps.old + 1 }
{
    let place = place_of(slider.n, number);
    // Copied first: behind a reference they would be read again after the ring is written.
    let values = *values;
    let old = ring.push(values, steps);
    slider.slide(place, &values, old.as_ref());
}

/// The place of a number in the cycle. With the cycle's length written out no division is needed.
fn place_of(n: u32, number: u64) -> u32
    requires { (n ≡ 80) ⊎ (n ≡ 96) }
    ensures value { result ≡ number % n }
    ensures within { result < n }
{
    if n == 96 {
        (number % 96) as u32
    } else {
        (number % 80) as u32
    }
}

/// Empties the window where this number doesn't follow.
fn go_on(ring: &mut History<[i64; 8]>, slider: &mut Slider, next: u64, number: u64)
    requires n { (slider.old.n ≡ 80) ⊎ (slider.old.n ≡ 96) }
    requires state { IsSliding slider.old.n next ring.old slider.old }
    ensures n { slider.new.n ≡ slider.old.n }
    ensures state { IsSliding slider.new.n number ring.new slider.new }
    ensures items { ring.new.items ≡ (if number == next then ring.old.items else []) }
{
    if number != next {
        forget(ring, slider);
    }
}

/// Empties the window.
fn forget(ring: &mut History<[i64; 8]>, slider: &mut Slider)
    requires n { (slider.old.n ≡ 80) ⊎ (slider.old.n ≡ 96) }
    requires capacity { ring.old.capacity ≡ slider.old.n }
    ensures n { slider.new.n ≡ slider.old.n }
    ensures state { (next : ℕ) → IsSliding slider.new.n next ring.new slider.new }
    ensures items { ring.new.items ≡ [] }
{
    ring.clear();
    slider.clear();
}
