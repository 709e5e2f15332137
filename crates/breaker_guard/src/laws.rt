//! Laws of the definition, and no code.
ghost use Rattle.breaker_guard.specs.OneLine.{HaveOneLine};

/// Law: there is never more than one line at a sample.
pub fn show_one_line()
    ensures { HaveOneLine }
{}
