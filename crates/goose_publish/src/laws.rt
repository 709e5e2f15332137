//! Laws of the definitions: what is proved of them for all takes.
ghost use Rattle.goose_publish.specs.Laws.{ChangeIsNewest, EachOffsetCounts, LastIsGreatest, StateGoesOnWith1, SequenceGoesOnWith1};

/// Law: the offsets count from the greatest number at which the points changed.
pub fn show_change_is_newest()
    ensures { ChangeIsNewest }
{}

/// Law: a frame is sent exactly where the points change, or where some offset, however great, falls after the take
/// before and not after the newest.
pub fn show_each_offset_counts()
    ensures { EachOffsetCounts }
{}

/// Law: the offset that tells the time to live is the greatest of all that don't fall after the newest take.
pub fn show_last_is_greatest()
    ensures { LastIsGreatest }
{}

/// Law: the count of changes and the count of frames go from the greatest number of 32 bits to 1.
pub fn show_counts_go_on_with_1()
    ensures state { StateGoesOnWith1 }
    ensures sequence { SequenceGoesOnWith1 }
{}
