//! Rows of sample sets with the events that they bring.
ghost use Rattle.std.specs.Prelude.{◌≡◌, ◌<◌, IfSome};
ghost use Rattle.relay_settings.specs.Ranges.{IsCommon, IsGoose, IsLine, IsMimic};

use super::*;
use arrayvec::ArrayVec;
use event_record::{Event, What, at_of};
use relay_num::{Steps, copy_of, open_steps};
use relay_settings::{Common, GooseSettings, LineSettings, Mimic};
use std::alloc::{AllocError, Global};
use std::marker::Brand;
use std::process::Abort;
use std::sync::ledger::{Blank, Ledger};
use std::test::Fail;
use sv_frame::Asdu;

/// Eight values of 0 without a quality bit.
const GOOD: [u8; 64] = [0; 64];

pub(crate) fn common() -> Common
    ensures ranges { IsCommon result }
    ensures rated { 1 < result.rate }
{
    Common {
        rate: 4800,
        nominal: 50,
        n: 96,
        start: 1_704_067_200,
        heartbeat_ms: 1000,
    }
}

pub(crate) fn settings(mimic: Option<Mimic>) -> LineSettings
    requires { IfSome mimic IsMimic }
    ensures { IsLine result }
{
    LineSettings {
        name: copy_of(b"L1"),
        sv_id: copy_of(b"MU01"),
        conf_rev: 1,
        quality_mask: 3,
        synch_min: 0,
        line_r: 0,
        line_x: 15_000,
        k0_re: 600,
        k0_im: 0,
        i_min: 200_000,
        i0_min: 100_000,
        dir_i2: 100_000,
        mem_u: 1_000_000,
        mem_ms: 200,
        trip_min_ms: 100,
        open_i: 50_000,
        open_ms: 20,
        mimic,
        swing: None,
        fuse: None,
        load: None,
        goose: goose(),
        zones: ArrayVec::new(),
    }
}

fn goose() -> GooseSettings
    ensures { IsGoose result }
{
    GooseSettings {
        dst: [1, 12, 205, 1, 0, 1],
        src: [2, 0, 0, 0, 0, 2],
        appid: 1,
        vlan_priority: 4,
        vlan_id: 0,
        gocb_ref: copy_of(b"P1/LLN0$GO$G1"),
        dat_set: copy_of(b"P1/LLN0$DS1"),
        go_id: copy_of(b"G1"),
        conf_rev: 1,
    }
}

/// Good sample sets with these counters, the last left out, with this revision and data.
type Row<'a> = (u16, u16, u32, &'a [u8]);

/// A line, and what it told.
#[derive(Drop)]
struct Told {
    line: Line,
    events: Vec<Event>,
}

impl Told {
    fn hear<L: Ledger>(
        &mut self,
        steps: &mut Steps<L>,
        counter: u16,
        conf_rev: u32,
        samples: &[u8],
    ) -> Result<(), AllocError> {
        if self.line.last().unwrap_or(0) >= 1 << 60 || samples.len() > 64 {
            return Ok(());
        }
        let a = Asdu {
            sv_id: b"MU01",
            counter,
            conf_rev,
            synch: 2,
            samples,
        };
        let burst = self.line.take(&a, steps);
        self.events.extend_from_slice(burst.events.as_slice())
    }
}

/// What a new line tells of these sample sets.
fn told_of<L: Ledger>(
    alloc: Global,
    mimic: Option<Mimic>,
    rows: &[Row],
    blank: Blank,
) -> Result<Told, Fail>
    requires mimic { IfSome mimic IsMimic }
    requires name { blank.name ≡ L.name }
    requires parts { blank.parts ≡ L.parts }
    requires shares { 0 < blank.parts }
{
    let mut steps = open_steps::<L>(blank);
    let line = Line::new(alloc, &common(), &settings(mimic))?;
    let events = Vec::new(alloc);
    let mut told = Told { line, events };
    for (from, to, conf_rev, samples) in rows {
        for counter in *from..*to {
            told.hear(&mut steps, counter, *conf_rev, samples)?;
        }
    }
    Ok(told)
}

/// The line told exactly these, each at a sample of this number.
fn assert_told(rt: &impl Abort, told: &Told, rows: &[(Option<u64>, What)]) {
    assert_eq!(rt; told.events.len(), rows.len());
    for (place, (number, what)) in rows.iter().enumerate() {
        let at = match *number {
            Some(number) => Some(at_of(&common(), number)),
            None => None,
        };
        let event = Event::Line { at, what: *what };
        assert_eq!(rt; told.events.get(place).copied(), Some(event));
    }
}

#[test]
fn bad_sample_ends_the_cycle(rt: HostRuntime) -> Result<(), Fail> {
    let mut bad = GOOD;
    bad[0] = 0x10;
    let rows: [Row; 7] = [
        (0, 200, 1, &GOOD),
        (200, 201, 1, &bad),
        (201, 501, 1, &GOOD),
        (500, 501, 1, &GOOD),
        (436, 437, 1, &GOOD),
        (435, 436, 1, &GOOD),
        (4800, 4801, 1, &GOOD),
    ];
    let told = told_of::<Brand>(rt.alloc(), None, &rows, Blank::new(1))?;
    let events = [
        (Some(0), What::First),
        (Some(95), What::Ready),
        (Some(200), What::Lost),
        (Some(296), What::Ready),
        (Some(500), What::Repeat { counter: 500 }),
        (
            Some(500),
            What::Late {
                counter: 436,
                behind: 64,
            },
        ),
        (Some(5235), What::Jump { missing: 4734 }),
        (Some(5235), What::Lost),
        (Some(5235), What::Wild { counter: 4800 }),
    ];
    assert_told(&rt, &told, &events);
    assert_eq!(rt; told.line.last(), Some(5235));
    assert_eq!(rt; told.line.name(), b"L1".as_slice());
    Ok(())
}

#[test]
fn mimic_needs_one_sample_more(rt: HostRuntime) -> Result<(), Fail> {
    let mimic = Some(Mimic { a: 1024, b: 0 });
    let rows: [Row; 4] = [
        (0, 1, 7, &GOOD[..60]),
        (0, 1, 1, &GOOD[..60]),
        (4752, 4800, 1, &GOOD),
        (0, 49, 1, &GOOD),
    ];
    let told = told_of::<Brand>(rt.alloc(), mimic, &rows, Blank::new(1))?;
    let events = [
        (None, What::ConfRev { got: 7 }),
        (None, What::Length { got: 60 }),
        (Some(4752), What::First),
        (Some(4848), What::Ready),
    ];
    assert_told(&rt, &told, &events);
    Ok(())
}
