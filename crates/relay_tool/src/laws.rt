//! What holds of the scalar definition alone.
ghost use Rattle.relay_tool.specs.Output.{Tells};
ghost use Rattle.relay_tool.specs.LineParts.{AcceptedAreApart, PartsAreEqual, MalformedAddsItsLine};

/// Law: a line's part of what is written is what its own sample sets alone would give, for every line of
/// every accepted settings file and every capture.
pub fn show_apart()
    ensures { AcceptedAreApart }
{}

/// Law: two runs with equal common settings write equal parts of a line that both have and whose own sample
/// sets are equal, whatever else the settings and the captures hold.
pub fn show_parts_are_equal()
    ensures { PartsAreEqual }
{}

/// Law: a malformed frame adds its one line and changes no line's part.
pub fn show_malformed()
    ensures { (tells : Tells) → MalformedAddsItsLine tells }
{}
