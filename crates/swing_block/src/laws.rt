//! Laws of the definitions, and no code.

ghost use Rattle.swing_block.specs.NumberedSwing.{SwingsByNumber};

/// What a swing answers over the takes is the rule over sample numbers that may have gaps.
pub fn show_swings_by_number<S>()
    ensures { SwingsByNumber S }
{}
