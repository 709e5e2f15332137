//! The numbers of samples.
ghost use Rattle.std.specs.Prelude.{◌≡◌, ◌%◌, ◌<◌, ◌≤◌};
ghost use Rattle.std.specs.Option.{ForSome};

use crate::after::after;

/// What becomes of a sample set, by its counter.
#[derive(Clone, Copy, Debug, PartialEq, Eq)]
pub enum Taken {
    /// The first that is taken. Its number is its counter.
    First { number: u64 },
    /// Taken, with the number behind the last one.
    Next { number: u64 },
    /// Taken, with a number that leaves so many missing behind the last one.
    Jump { number: u64, missing: u32 },
    /// Not taken: the counter of the last number again.
    Repeat,
    /// Not taken: the counter of a number that many before the last one, from 1 to 64.
    Late { behind: u32 },
    /// Not taken: a counter that isn't below the rate.
    Wild,
}

impl Taken {
    ghost use Rattle.std.specs.Prelude.{◌≡◌};
    ghost use Rattle.sample_stream.specs.Taken.{number_of};

    /// The number of the sample, where it is taken.
    pub fn number(&self) -> Option<u64>
        ensures { result ≡ number_of self.now }
    {
        match *self {
            Taken::First { number } | Taken::Next { number } | Taken::Jump { number, .. } => Some(
                number,
            ),
            Taken::Repeat | Taken::Late { .. } | Taken::Wild => None,
        }
    }
}

/// Numbers the samples of one stream.
#[derive(Drop)]
pub struct Numberer {
    rate: u32,
    last: Option<u64>,
    /// The counter of the last number, so that the next one is told without a division.
    counter: u64,
    ghost above_window: { 65 < rate },
    ghost below_counters: { rate ≤ 4800 },
    ghost same_counter: { ForSome last (λ number. number % rate ≡ counter) },
}

impl Numberer {
    ghost use Rattle.std.specs.Prelude.{ℕ, ◌≡◌, ◌⊎◌, ◌+◌, ◌<◌, ◌≤◌, ◌^◌, List, [], ◌∷◌};
    ghost use Rattle.std.specs.Option.{ForSome};
    ghost use Rattle.sample_stream.specs.Numbering.{StandsFor, outcome, outcomes, last_number, last_of, rate_of, newer_or, Follows};
    ghost use Rattle.sample_stream.specs.Taken.{number_of};

    /// One that has taken nothing, for a stream of 4800 or 4000 samples per second.
    pub fn new(rate: u32) -> Numberer
        requires { (rate ≡ 4800) ⊎ (rate ≡ 4000) }
        ensures none { last_of result ≡ None }
        ensures stands { StandsFor rate [] result }
    {
        Numberer {
            rate,
            last: None,
            counter: 0,
        }
    }

    /// Numbers the sample with this counter, or says why it isn't taken. The last number has to be
    /// below 2^60. What isn't taken changes nothing.
    pub fn take(&mut self, counter: u16) -> Taken
        requires { ForSome (last_of self.old) (λ last. last < 2 ^ 60) }
        // By the counters before: for each list of them that the numberer stands for.
        ensures outcome { (rate : ℕ) (counters : List ℕ) → StandsFor rate counters self.old →
            result ≡ outcome rate (last_number (outcomes rate counters)) counter }
        ensures after { (rate : ℕ) (counters : List ℕ) → StandsFor rate counters self.old →
            StandsFor rate (counter ∷ counters) self.new }
        // By the last number alone.
        ensures from_last { result ≡ outcome (rate_of self.old) (last_of self.old) counter }
        ensures last { last_of self.new ≡ newer_or (number_of result) (last_of self.old) }
        ensures same_rate { rate_of self.new ≡ rate_of self.old }
        ensures next { Follows (last_of self.old) result }
        ensures grows { (most : ℕ) → ForSome (last_of self.old) (λ last. last ≤ most) → ForSome (last_of self.new) (λ last. last ≤ most + 4800) }
    {
        if u32::from(counter) >= self.rate {
            return Taken::Wild;
        }
        let counter = u64::from(counter);
        let Some(last) = self.last else {
            self.last = Some(counter);
            self.counter = counter;
            return Taken::First { number: counter };
        };
        let rate = u64::from(self.rate);
        let outcome = after(rate, last, self.counter, counter);
        if let Some(number) = outcome.number() {
            self.last = Some(number);
            self.counter = counter;
        }
        outcome
    }

    /// The last number that was taken.
    pub fn last(&self) -> Option<u64>
        ensures { result ≡ last_of self.now }
    {
        self.last
    }
}
