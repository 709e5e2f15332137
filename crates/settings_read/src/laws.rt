//! Laws of the definition: what is so of every settings text that is accepted.
ghost use Rattle.settings_read.specs.SettingsLaws.{AcceptedLinesDiffer, AcceptedZonesHaveAPart, Version1PartsAreEqual};

/// Law: the lines of accepted settings have distinct names, distinct svIDs and distinct control block
/// references.
pub fn show_lines_differ()
    ensures { AcceptedLinesDiffer }
{}

/// Law: each zone of accepted settings has a part for the ground loops, a part for the phase loops, or
/// both.
pub fn show_zones_have_a_part()
    ensures { AcceptedZonesHaveAPart }
{}

/// Law: the two parts of each zone of accepted settings of version 1 are there and equal.
pub fn show_version_1_parts_are_equal()
    ensures { Version1PartsAreEqual }
{}
