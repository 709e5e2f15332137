//! Laws of the definitions.
ghost use Rattle.sample_stream.specs.Numbering.{NumbersAreUnique};

/// Law: a counter below the rate that neither repeats nor is late has exactly one number.
pub fn show_numbers_are_unique()
    ensures { NumbersAreUnique }
{}
