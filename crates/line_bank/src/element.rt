//! What a bank has for each line.
ghost use Rattle.std.specs.Prelude.{ℕ, List, [], ◌∷◌, Option, None, ◌≡◌, ◌≤◌, ◌<◌, ◌+◌, ◌^◌, IfOk};
ghost use Rattle.std.specs.Option.{ForSome};
ghost use Rattle.relay_settings.specs.declared.types.Common.{Common};
ghost use Rattle.relay_settings.specs.Settings.{PlainLine, plain_line};
ghost use Rattle.relay_settings.specs.Ranges.{IsCommon, IsLine};
ghost use Rattle.sv_frame.specs.Asdu.{PlainAsdu, plain_asdu};
ghost use Rattle.line_bank.specs.Owners.{owns};

use relay_num::{NoMemory, Steps};
use relay_settings::{Common, LineSettings};
use std::alloc::Global;
use std::sync::ledger::Ledger;
use sv_frame::Asdu;

/// One line's element. Its meaning is a function of the line's own sample sets.
pub trait LineElement: Drop {
    /// What it is set to, beside the settings.
    type Asked: Copy;

    /// What it tells of a sample set.
    type Told: Drop;

    // What it may be set to.
    ghost IsAsked: { Self.Asked → Type 0 };

    // What it tells, as plain data.
    ghost Said: { Type 0 };

    ghost said: { Self.Told → Said };

    // What it tells can be printed.
    ghost IsPrintable: { Self.Told → Type 0 };

    // It is a line's of these settings, after these sample sets of its own, the newest first.
    ghost stands: { Common → Self.Asked → PlainLine → List PlainAsdu → Self → Type 0 };

    // What it tells of the newest of them.
    ghost tells: { Common → Self.Asked → PlainLine → List PlainAsdu → Said };

    // The last number that it took.
    ghost last: { Self → Option ℕ };

    // The steps that a sample set costs, at most.
    ghost most_steps: { ℕ };

    /// An element that has heard nothing. `NoMemory` comes only where the allocator has no room for what it keeps;
    /// nothing is made then.
    fn new(
        alloc: Global,
        common: &Common,
        s: &LineSettings,
        asked: Self::Asked,
    ) -> Result<Self, NoMemory>
        requires common { IsCommon common.now }
        requires settings { IsLine s.now }
        requires asked { IsAsked asked }
        ensures stands { IfOk result (λ element. stands common.now asked (plain_line s.now) [] element) }
        ensures none { IfOk result (λ element. last element ≡ None) };

    /// Whether a sample set is the line's own, which its svID says.
    fn owns(&self, a: &Asdu<'_>) -> bool
        ensures { (common : Common) (asked : Self.Asked) (line : PlainLine) (asdus : List PlainAsdu) →
            stands common asked line asdus self.now → result ≡ owns line (plain_asdu a.now) };

    /// Takes the next sample set of the line, and answers what it tells. The last number has to be below 2^60. It
    /// takes no memory.
    fn take<L: Ledger>(&mut self, a: &Asdu<'_>, steps: &mut Steps<L>) -> Self::Told
        requires { ForSome (last self.old) (λ number. number < 2 ^ 60) }
        ensures grows { (most : ℕ) → ForSome (last self.old) (λ number. number ≤ most) → ForSome (last self.new) (λ number. number ≤ most + 4800) }
        // By the sample sets before: for each list of them that it stands for.
        ensures told { (common : Common) (asked : Self.Asked) (line : PlainLine) (asdus : List PlainAsdu) →
            stands common asked line asdus self.old → said result ≡ tells common asked line (plain_asdu a.now ∷ asdus) }
        ensures after { (common : Common) (asked : Self.Asked) (line : PlainLine) (asdus : List PlainAsdu) →
            stands common asked line asdus self.old → stands common asked line (plain_asdu a.now ∷ asdus) self.new }
        ensures printable { IsPrintable result }
        ensures cost { steps.new ≤ steps.old + most_steps };
}
