//! Laws of the definitions, and no code.

ghost use Rattle.zone_timers.specs.NumberedOperate.{OperatesByNumber};

/// What timers answer over the takes is the rule over sample numbers that may have gaps.
pub fn show_operates_by_number<S>()
    ensures { OperatesByNumber S }
{}
