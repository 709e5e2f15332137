//! Laws of the definitions, and no code.

ghost use Rattle.memory_volt.specs.NumberedPolarising.{PolarisesByNumber};

/// What a memory answers over the takes is the rule over sample numbers that may have gaps.
pub fn show_polarises_by_number<S>()
    ensures { PolarisesByNumber S }
{}
