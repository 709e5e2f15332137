//! Worked rows: waves at the table's own scale, the greatest sum, and a constant that starts within a cycle.
ghost use Rattle.std.specs.Prelude.{◌≡◌, ◌+◌, ◌^◌, ◌<◌, ◌≤◌, ◌⊎◌, ℕ, IfOk};
ghost use Rattle.relay_num.specs.Bounds.{AllBelow, value_bound};
ghost use Rattle.cycle_phasor.specs.Window.{IsSliding};

use crate::{Slider, take_values};
use relay_num::{Cx, NoMemory, Steps, open_steps, wave};
use sample_ring::History;
use std::alloc::Global;
use std::marker::Brand;
use std::sync::ledger::{Blank, Ledger};

/// An empty window for `n` samples a cycle.
fn start(alloc: Global, n: u32) -> Result<(History<[i64; 8]>, Slider), NoMemory>
    requires { (n ≡ 80) ⊎ (n ≡ 96) }
    ensures { IfOk result (λ pair. (next : ℕ) → IsSliding n next pair.0 pair.1) }
{
    let ring = History::new(alloc, n as usize)?;
    Ok((ring, Slider::new(n)))
}

#[derive(Clone, Copy, Drop)]
enum Fed {
    Cosine,
    Sine,
    Greatest,
    Constant,
}

/// The same value in each lane.
fn values_of(what: Fed, number: u64) -> [i64; 8]
    ensures { AllBelow result value_bound }
{
    let (cosine, sine) = wave(96, (number % 96) as u32);
    match what {
        Fed::Cosine => [cosine; 8],
        Fed::Sine => [sine; 8],
        Fed::Greatest if cosine > 0 => [268_435_455; 8],
        Fed::Greatest if cosine < 0 => [-268_435_455; 8],
        Fed::Greatest => [0; 8],
        Fed::Constant => [268_435_455; 8],
    }
}

/// Takes the samples from the number `first` on, before `end`.
fn run<L: Ledger>(
    ring: &mut History<[i64; 8]>,
    slider: &mut Slider,
    first: u64,
    end: u64,
    what: Fed,
    steps: &mut Steps<L>,
)
    requires n { (slider.old.n ≡ 80) ⊎ (slider.old.n ≡ 96) }
    requires order { first ≤ end }
    requires state { IsSliding slider.old.n first ring.old slider.old }
    ensures n { slider.new.n ≡ slider.old.n }
    ensures state { IsSliding slider.old.n end ring.new slider.new }
{
    for next in first..end {
        take_values(ring, slider, next, next, Some(values_of(what, next)), steps);
    }
}

/// The slider after a window of `n` samples from the number `first` on, and after one more.
fn slid<L: Ledger>(
    alloc: Global,
    n: u32,
    first: u64,
    what: Fed,
    blank: Blank,
) -> Option<(Slider, Slider)>
    requires n { (n ≡ 80) ⊎ (n ≡ 96) }
    requires first { first < 2 ^ 32 }
    requires name { blank.name ≡ L.name }
    requires parts { blank.parts ≡ L.parts }
    requires shares { 0 < blank.parts }
{
    let Ok((mut ring, mut slider)) = start(alloc, n) else {
        return None;
    };
    let mut steps = open_steps::<L>(blank);
    run(
        &mut ring,
        &mut slider,
        first,
        first + u64::from(n),
        what,
        &mut steps,
    );
    let whole = slider;
    let last = first + u64::from(n);
    run(&mut ring, &mut slider, last, last + 1, what, &mut steps);
    Some((whole, slider))
}

/// The phasors of a whole window.
fn phasors(found: Option<(Slider, Slider)>) -> Option<[Cx; 8]> {
    match found {
        Some((whole, _)) => whole.phasors(),
        None => None,
    }
}

#[test]
fn full_windows_have_the_phasors_of_their_waves(rt: HostRuntime) {
    let found = slid::<Brand>(rt.alloc(), 96, 0, Fed::Cosine, Blank::new(1));
    assert_eq!(rt; phasors(found), Some([Cx { re: 24575, im: 0 }; 8]));
    let found = slid::<Brand>(rt.alloc(), 96, 0, Fed::Sine, Blank::new(1));
    assert_eq!(rt; phasors(found), Some([Cx { re: 0, im: -24576 }; 8]));
    let found = slid::<Brand>(rt.alloc(), 96, 0, Fed::Greatest, Blank::new(1));
    assert_eq!(rt;
        phasors(found),
        Some([Cx {
            re: 512_489_470,
            im: 0
        }; 8])
    );
}

#[test]
fn a_constant_has_no_phasor_and_leaves_the_sums(rt: HostRuntime) {
    let found = slid::<Brand>(rt.alloc(), 80, 79, Fed::Constant, Blank::new(1));
    assert_eq!(rt; phasors(found), Some([Cx { re: 0, im: 0 }; 8]));
    let Some((whole, after)) = found else {
        return;
    };
    let re = after.re;
    let im = after.im;
    let re_before = whole.re;
    let im_before = whole.im;
    assert_eq!(rt; re, re_before);
    assert_eq!(rt; im, im_before);
}
