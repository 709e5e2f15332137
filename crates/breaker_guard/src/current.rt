//! Whether current flows.
ghost use Rattle.std.specs.Prelude.{ℕ, ◌≡◌, ◌≤◌, ◌⊎◌, ◌^◌, ◌+◌, false};
ghost use Rattle.std.specs.List.{All};
ghost use Rattle.std.specs.Option.{ForSome, option_map, option_map_or};
ghost use Rattle.relay_num.specs.Bounds.{is_cycle};
ghost use Rattle.relay_num.specs.Numbers.{IsBelow};
ghost use Rattle.line_relay.specs.Measured.{measured};
ghost use Rattle.breaker_guard.specs.GuardTakes.{has_current};

use relay_num::{Cx, at_least_rms};

/// Whether a phase current is at least `open_i` mA, of the phasors of `n` samples a cycle, where the sample is ready.
pub fn is_flowing(n: u32, open_i: u32, phasors: &Option<[Cx; 8]>) -> bool
    requires n { (n ≡ 80) ⊎ (n ≡ 96) }
    requires open_i { open_i ≤ 2 ^ 30 }
    requires phasors { ForSome phasors.now (All (λ p. IsBelow p (2 ^ 30 + 1))) }
    ensures { result ≡ option_map_or (λ ps. has_current n open_i (measured ps)) phasors.now false }
{
    match phasors {
        Some(phasors) => has_current(n, open_i, phasors),
        None => false,
    }
}

/// The same at a ready sample.
#[tactic(auto, unfolding(line_relay::specs::Measured::measured))]
fn has_current(n: u32, open_i: u32, phasors: &[Cx; 8]) -> bool
    requires n { (n ≡ 80) ⊎ (n ≡ 96) }
    requires open_i { open_i ≤ 2 ^ 30 }
    requires phasors { All (λ p. IsBelow p (2 ^ 30 + 1)) phasors.now }
    ensures { result ≡ has_current n open_i (measured phasors.now) }
{
    let [a, b, c, ..] = *phasors;
    at_least_rms(a, n, open_i) || at_least_rms(b, n, open_i) || at_least_rms(c, n, open_i)
}
