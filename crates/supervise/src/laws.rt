//! Laws of the definitions, and no code.

ghost use Rattle.supervise.specs.NumberedFuse.{BlowsByNumber};

/// What a fuse answers over the takes is the rule over sample numbers that may have gaps.
pub fn show_blows_by_number<S>()
    ensures { BlowsByNumber S }
{}
