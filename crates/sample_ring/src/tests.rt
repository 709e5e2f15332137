//! What a history of two items answers.
ghost use Rattle.std.specs.Prelude.{◌≡◌, ◌<◌};

use crate::History;
use relay_num::open_steps;
use std::alloc::Global;
use std::marker::Brand;
use std::sync::ledger::{Blank, Ledger};

/// The answers to three pushes and to `back` at 0, 1 and 2; none of them without memory.
fn answers<L: Ledger>(alloc: Global, blank: Blank) -> Option<([Option<u32>; 3], [Option<u32>; 3])>
    requires name { blank.name ≡ L.name }
    requires parts { blank.parts ≡ L.parts }
    requires shares { 0 < blank.parts }
{
    let mut steps = open_steps::<L>(blank);
    let Ok(mut history) = History::new(alloc, 2) else {
        return None;
    };
    let first = history.push(1, &mut steps);
    let second = history.push(2, &mut steps);
    let third = history.push(3, &mut steps);
    let newest = history.back(0, &mut steps);
    let before = history.back(1, &mut steps);
    let gone = history.back(2, &mut steps);
    history.clear();
    let cleared = history.back(0, &mut steps);
    Some(([first, second, third], [newest, before, gone.or(cleared)]))
}

#[test]
fn two_items_are_kept_and_the_third_push_answers_the_first(rt: HostRuntime) {
    let found = answers::<Brand>(rt.alloc(), Blank::new(1));
    let pushed = [None, None, Some(1)];
    let behind = [Some(3), Some(2), None];
    assert_eq!(rt; found, Some((pushed, behind)));
}
