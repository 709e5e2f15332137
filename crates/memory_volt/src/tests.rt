//! A cycle of 80 samples, and a memory that holds for two.
ghost use Rattle.std.specs.Prelude.{◌≡◌, ◌<◌};

use super::*;
use relay_num::open_steps;
use std::marker::Brand;
use std::sync::ledger::Blank;

const ONE: Cx = Cx { re: 1, im: 0 };

/// Whether each of `count` takes that aren't low answers its own voltage, and what three low ones after them
/// answer, where asked for with a `clear` between.
fn answers<L: Ledger>(
    alloc: Global,
    count: i64,
    cleared: bool,
    blank: Blank,
) -> Result<(bool, [Option<Cx>; 3]), NoMemory>
    requires name { blank.name ≡ L.name }
    requires parts { blank.parts ≡ L.parts }
    requires shares { 0 < blank.parts }
{
    let mut steps = open_steps::<L>(blank);
    let mut memory = MemoryVolt::new(alloc, 80, 2)?;
    let mut own = true;
    for k in 0..count {
        let plus = Cx { re: k + 1, im: 0 };
        own &= memory.take(plus, false, &mut steps) == Some(plus);
    }
    if cleared {
        memory.clear();
    }
    let low = Cx::default();
    let first = memory.take(low, true, &mut steps);
    let second = memory.take(low, true, &mut steps);
    let third = memory.take(low, true, &mut steps);
    Ok((own, [first, second, third]))
}

#[test]
fn memory_holds_the_voltage_of_a_whole_cycle_before(rt: HostRuntime) {
    let rows = [
        (81, false, [Some(ONE), Some(ONE), None]),
        (80, false, [None, None, None]),
        (81, true, [None, None, None]),
    ];
    for (count, cleared, low) in rows {
        let found = answers::<Brand>(rt.alloc(), count, cleared, Blank::new(1));
        assert_eq!(rt; found, Ok((true, low)), "after {count}");
    }
}
