//! Laws of the definitions, and no code.

ghost use Rattle.loop_impedance.specs.MaskLaws.{MasksAgree};

/// The mask of a list of loops has exactly the bits that the list says.
pub fn show_masks_agree()
    ensures { MasksAgree }
{}
