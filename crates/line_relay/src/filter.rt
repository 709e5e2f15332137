//! The filtered values of a sample, and what the mimic filter needs at the next.
ghost use Rattle.std.specs.Prelude.{◌≡◌, ◌^◌, None};
ghost use Rattle.std.specs.Option.{ForSome};
ghost use Rattle.relay_num.specs.Bounds.{AllBelow};
ghost use Rattle.cycle_phasor.specs.Sliding.{values_left};
ghost use Rattle.relay_settings.specs.Ranges.{IsMimic};
ghost use Rattle.line_relay.specs.KeptSamples.{lanes_after, kept_values};

use mimic_filter::mimic8;
use relay_settings::Mimic;
use sample_stream::Sample;

/// The filtered values of a good sample, where the filter has the values of the number before.
pub fn filtered(
    mimic: Option<Mimic>,
    before: Option<[i64; 8]>,
    follows: bool,
    sample: &Sample,
) -> Option<[i64; 8]>
    requires mimic { ForSome mimic IsMimic }
    requires before { AllBelow (values_left before) (2 ^ 28) }
    requires sample { AllBelow sample.now.values (2 ^ 28) }
    ensures lanes { result ≡ lanes_after mimic before follows sample.now }
    ensures small { AllBelow (values_left result) (2 ^ 28) }
{
    if !sample.good {
        return None;
    }
    let Some(mimic) = mimic else {
        return Some(sample.values);
    };
    if !follows {
        return None;
    }
    let Some(before) = before else {
        return None;
    };
    Some(mimic8(mimic.a, mimic.b, &sample.values, &before))
}

/// Keeps the values of a sample that the filter needs at the next number. Without a filter none are kept, and nothing
/// is written.
pub fn keep(before: &mut Option<[i64; 8]>, mimic: Option<Mimic>, sample: &Sample)
    requires before { AllBelow (values_left before.old) (2 ^ 28) }
    requires sample { AllBelow sample.now.values (2 ^ 28) }
    ensures kept { (mimic ≡ None → before.old ≡ None) → before.new ≡ kept_values mimic sample.now }
    ensures small { AllBelow (values_left before.new) (2 ^ 28) }
{
    if mimic.is_none() {
        return;
    }
    *before = if sample.good {
        Some(sample.values)
    } else {
        None
    };
}
