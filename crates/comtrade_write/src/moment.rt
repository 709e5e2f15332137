//! The moment of a sample, as the configuration has it.
ghost use Rattle.std.specs.Prelude.{◌≡◌, ◌≤◌, ◌<◌, ◌+◌, ◌^◌, ◌++◌, length};
ghost use Rattle.event_record.specs.Time.{year_of, month_of, day_of};
ghost use Rattle.comtrade_read.specs.Moments.{day_text, moment_text};
ghost use Rattle.comtrade_write.specs.Moments.{moment_of};

use arrayvec::ArrayVec;
use event_record::{CivilDate, at_of, civil_date, put_clock, put_fixed};
use relay_settings::Common;

/// Appends the civil time of the sample with this number, as `29/02/2024,23:59:59.000208`.
#[tactic(auto, unfolding(crate::specs::Moments::moment_of))]
pub(crate) fn put_moment(out: &mut ArrayVec<u8, 160>, common: &Common, number: u64)
    requires rate { 1 < common.now.rate }
    requires room { length out.old.items + 26 ≤ 160 }
    ensures bytes { out.new.items ≡ out.old.items ++ moment_text (moment_of common.now number) }
    ensures long { length out.new.items ≡ length out.old.items + 26 }
{
    let at = at_of(common, number);
    put_date(out, at.seconds / 86400);
    out.push(b',');
    put_clock(out, at.seconds % 86400);
    out.push(b'.');
    put_fixed(out, 6, at.nanos / 1000);
}

/// Appends the civil date of a day since 1970, as `29/02/2024`.
fn put_date(out: &mut ArrayVec<u8, 160>, day: u32)
    requires day { day ≤ 49710 }
    requires room { length out.old.items + 10 ≤ 160 }
    ensures bytes { out.new.items ≡ out.old.items ++ day_text (year_of day) (month_of day) (day_of day) }
    ensures long { length out.new.items ≡ length out.old.items + 10 }
{
    let CivilDate { year, month, day } = civil_date(day);
    put_fixed(out, 2, day);
    out.push(b'/');
    put_fixed(out, 2, month);
    out.push(b'/');
    put_fixed(out, 4, year);
}
