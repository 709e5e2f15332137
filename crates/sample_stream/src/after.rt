//! A counter against the last number.

ghost use Rattle.std.specs.Prelude.{◌≡◌, ◌+◌, ◌-◌, ◌%◌, ◌<◌, ◌≤◌, ◌^◌};
ghost use Rattle.std.specs.Option.{ForSome};
ghost use Rattle.sample_stream.specs.Numbering.{outcome_after};
ghost use Rattle.sample_stream.specs.Taken.{number_of};

use crate::numberer::Taken;

/// What becomes of a counter after the last number, which had the counter `before`.
pub(crate) fn after(rate: u64, last: u64, before: u64, counter: u64) -> Taken
    requires above { 65 < rate }
    requires below { rate ≤ 4800 }
    requires counter { counter < rate }
    requires last { last < 2 ^ 60 }
    requires before { last % rate ≡ before }
    ensures outcome { result ≡ outcome_after rate last counter }
    ensures near { ForSome (number_of result) (λ number. number < last + rate) }
    ensures same_counter { ForSome (number_of result) (λ number. number % rate ≡ counter) }
{
    let distance = ahead(rate, before, counter);
    if distance == 1 {
        Taken::Next { number: last + 1 }
    } else if distance == 0 {
        Taken::Repeat
    } else if distance >= rate - 64 {
        Taken::Late {
            behind: (rate - distance) as u32,
        }
    } else {
        Taken::Jump {
            number: last + distance,
            missing: (distance - 1) as u32,
        }
    }
}

/// By how many a counter is ahead of the one before, modulo the rate. No division is needed.
fn ahead(rate: u64, before: u64, counter: u64) -> u64
    requires below { rate ≤ 4800 }
    requires counter { counter < rate }
    requires before { before < rate }
    ensures distance { result ≡ (counter + rate - before) % rate }
{
    if counter >= before {
        counter - before
    } else {
        counter + rate - before
    }
}
