//! Times in samples.
ghost use Rattle.std.specs.Prelude.{◌≡◌, ◌≤◌};
ghost use Rattle.relay_settings.specs.Times.{samples};

/// `ms` milliseconds of a setting in samples, at `rate` samples a second: the least number of samples
/// that lasts as long.
pub fn samples_of(rate: u32, ms: u32) -> u32
    requires rate { rate ≤ 65535 }
    requires ms { ms ≤ 65535000 }
    ensures { result ≡ samples rate ms }
{
    wide_samples_of(rate, u64::from(ms)) as u32
}

/// The same of any time, for what goes on as long as a record does.
pub fn wide_samples_of(rate: u32, ms: u64) -> u128
    ensures { result ≡ samples rate ms }
{
    (u128::from(ms) * u128::from(rate) + 999) / 1000
}
