//! Laws of the definitions.
ghost use Rattle.line_relay.specs.Bursts.{UntakenKeeps};

/// Law: a sample set that isn't taken changes nothing of what later ones bring.
pub fn show_untaken_keeps()
    ensures { UntakenKeeps }
{}
