//! The words of the command line.
ghost use Rattle.std.specs.Prelude.{◌≡◌, Some, map, string_bytes, length, nat_le, ◌-◌, ◌^◌, ◌<◌, ◌≤◌};
ghost use Rattle.std.specs.Fmt.{decimal};
ghost use Rattle.std.specs.Str.{bytes_eq};
ghost use Rattle.std.specs.Option.{option_map};
ghost use Rattle.std.specs.Option.{ForSome};
ghost use Rattle.relay_tool.specs.Words.{form, form_of_seven, names_of, replayed, locate, are_short as are_short_names, are_short_study as are_short_study_names, are_short_record as are_short_record_names, recorded, recording_of as recording_asked, spelled, within, drill_of as drill_asked, backup_of as backup_asked, guard_of as guard_asked, curve_named as curve_by, study_names, studied};
ghost use Rattle.relay_tool.specs.Asking.{names_of_files, names_of_study, names_of_record, study_of, asked_of, IsInRange, IsStudy, IsRecord};

use arrayvec::ArrayVec;
use inverse_time::Curve;
use relay_num::put_decimal;

/// The longest file word, in bytes.
const LONGEST: usize = 1024;

/// The files of `replay`.
#[derive(Clone, Copy)]
pub struct Files<'a> {
    pub settings: &'a str,
    pub capture: &'a str,
    pub goose: &'a str,
    pub log: &'a str,
}

/// The files of a study.
#[derive(Clone, Copy)]
pub struct StudyFiles<'a> {
    pub settings: &'a str,
    pub capture: &'a str,
    pub log: &'a str,
}

/// What `record` asks for: its files, the name of a line, and which of that line's trips, of 1 to 1000000.
#[derive(Clone, Copy)]
pub struct RecordWords<'a> {
    pub settings: &'a str,
    pub capture: &'a str,
    pub line: &'a str,
    pub trip: u32,
    pub config_file: &'a str,
    pub data_file: &'a str,
}

/// A study: what runs over the lines' sample sets in place of the relay, and tells in the log alone.
#[derive(Clone, Copy)]
pub enum Study {
    /// Inverse-time overcurrent, with a pickup of 1 to 100000000 mA and a time multiplier setting of 25 to 1500
    /// thousandths.
    Backup {
        curve: Curve,
        pickup: u32,
        tms: u32,
    },
    /// Distances to the fault of each trip.
    Locate,
    /// A breaker that fails to open, within 1 to 10000 ms, and one reclosing, after a dead time of 1 to 60000 ms, with a
    /// reclaim time of 1 to 600000 ms.
    Guard {
        fail_ms: u32,
        dead_ms: u32,
        reclaim_ms: u32,
    },
}

/// What the words ask for.
#[derive(Clone, Copy)]
pub enum Command<'a> {
    Replay(Files<'a>),
    Check(&'a str),
    /// `drill` by this seed, of 1 to 600 seconds.
    Drill { seed: u64, seconds: u32 },
    Study(Study, StudyFiles<'a>),
    Record(RecordWords<'a>),
}

/// What the words ask for, if they are a form: `replay` with four files, `check` with one, `drill` with a seed and
/// 1 to 600 seconds, `backup` with three files, a curve, a pickup of 1 to 100000000 mA and a time multiplier
/// setting of 25 to 1500 thousandths, `locate` with three files,
/// `guard` with three files and three times in milliseconds, or `record` with two files, a line's name, a trip of 1 to 1000000 and
/// two files. Numbers are in decimal digits, and each file word has at most 1024 bytes.
pub fn parse<'a>(words: &'a [String]) -> Option<Command<'a>>
    ensures value { option_map asked_of result ≡ form (map string_bytes words.now) }
    ensures range { ForSome result IsInRange }
{
    match words {
        [command, settings] => if command.as_str() == "check" && settings.len() <= LONGEST {
            Some(Command::Check(settings.as_str()))
        } else {
            None
        },
        [command, seed, seconds] => if command.as_str() == "drill" {
            drill_of(seed.as_str(), seconds.as_str())
        } else {
            None
        },
        [command, settings, capture, log] => if command.as_str() == "locate" {
            locate_of(settings.as_str(), capture.as_str(), log.as_str())
        } else {
            None
        },
        [command, settings, capture, goose, log] => if command.as_str() == "replay" {
            replay_of(
                settings.as_str(),
                capture.as_str(),
                goose.as_str(),
                log.as_str(),
            )
        } else {
            None
        },
        [command, settings, capture, third, x, y, z] => parse_seven(
            command.as_str(),
            settings.as_str(),
            capture.as_str(),
            third.as_str(),
            x.as_str(),
            y.as_str(),
            z.as_str(),
        ),
        _ => None,
    }
}

/// What a command asks for whose settings and capture come before four more words: `backup`, `guard` or `record`.
fn parse_seven<'a>(
    command: &str,
    settings: &'a str,
    capture: &'a str,
    third: &'a str,
    x: &'a str,
    y: &'a str,
    z: &'a str,
) -> Option<Command<'a>>
    ensures value { option_map asked_of result ≡ form_of_seven command.now settings.entry.now capture.entry.now third.entry.now x.entry.now y.entry.now z.entry.now }
    ensures range { ForSome result IsInRange }
{
    let files = StudyFiles {
        settings,
        capture,
        log: third,
    };
    if command == "backup" {
        study_on(files, backup_of(x, y, z))
    } else if command == "guard" {
        study_on(files, guard_of(x, y, z))
    } else if command == "record" {
        record_of(settings, capture, third, x, y, z)
    } else {
        None
    }
}

/// What `replay` asks for, where its file words are short.
fn replay_of<'a>(
    settings: &'a str,
    capture: &'a str,
    goose: &'a str,
    log: &'a str,
) -> Option<Command<'a>>
    ensures value { option_map asked_of result ≡ replayed (names_of settings.entry.now capture.entry.now goose.entry.now log.entry.now) }
    ensures range { ForSome result IsInRange }
{
    let files = Files {
        settings,
        capture,
        goose,
        log,
    };
    if are_short(&files) {
        Some(Command::Replay(files))
    } else {
        None
    }
}

fn are_short(files: &Files<'_>) -> bool
    ensures { result ≡ are_short_names (names_of_files files.now) }
{
    files.settings.len() <= LONGEST
        && files.capture.len() <= LONGEST
        && files.goose.len() <= LONGEST
        && files.log.len() <= LONGEST
}

/// What `drill` asks for, where its words are numbers in their ranges.
fn drill_of<'a>(seed: &str, seconds: &str) -> Option<Command<'a>>
    ensures value { option_map asked_of result ≡ drill_asked (within 0 (2 ^ 64 - 1) (spelled seed.now)) (within 1 600 (spelled seconds.now)) }
    ensures range { ForSome result IsInRange }
{
    let seed = number_of(seed)?;
    let seconds = number_within(seconds, 1, 600)?;
    Some(Command::Drill { seed, seconds })
}

/// What `locate` asks for, where its file words are short.
fn locate_of<'a>(settings: &'a str, capture: &'a str, log: &'a str) -> Option<Command<'a>>
    ensures value { option_map asked_of result ≡ studied (study_names settings.entry.now capture.entry.now log.entry.now) (Some locate) }
    ensures range { ForSome result IsInRange }
{
    let files = StudyFiles {
        settings,
        capture,
        log,
    };
    study_on(files, Some(Study::Locate))
}

/// A study of these files, where there is one and their words are short.
fn study_on<'a>(files: StudyFiles<'a>, study: Option<Study>) -> Option<Command<'a>>
    requires { ForSome study IsStudy }
    ensures value { option_map asked_of result ≡ studied (names_of_study files.entry) (option_map study_of study) }
    ensures range { ForSome result IsInRange }
{
    let study = study?;
    if are_short_study(&files) {
        Some(Command::Study(study, files))
    } else {
        None
    }
}

fn are_short_study(files: &StudyFiles<'_>) -> bool
    ensures { result ≡ are_short_study_names (names_of_study files.now) }
{
    files.settings.len() <= LONGEST && files.capture.len() <= LONGEST && files.log.len() <= LONGEST
}

/// What `record` asks for, where its trip is a number in its range and its file words are short.
fn record_of<'a>(
    settings: &'a str,
    capture: &'a str,
    line: &'a str,
    trip: &str,
    config_file: &'a str,
    data_file: &'a str,
) -> Option<Command<'a>>
    ensures value { option_map asked_of result ≡ recording_asked settings.entry.now capture.entry.now line.entry.now (within 1 1000000 (spelled trip.now)) config_file.entry.now data_file.entry.now }
    ensures range { ForSome result IsInRange }
{
    let trip = number_within(trip, 1, 1_000_000)?;
    let words = RecordWords {
        settings,
        capture,
        line,
        trip,
        config_file,
        data_file,
    };
    if are_short_record(&words) {
        Some(Command::Record(words))
    } else {
        None
    }
}

fn are_short_record(words: &RecordWords<'_>) -> bool
    ensures { result ≡ are_short_record_names (names_of_record words.now) }
{
    words.settings.len() <= LONGEST
        && words.capture.len() <= LONGEST
        && words.config_file.len() <= LONGEST
        && words.data_file.len() <= LONGEST
}

/// What `guard` asks for, where its words are times in their ranges.
fn guard_of(fail: &str, dead: &str, reclaim: &str) -> Option<Study>
    ensures value { option_map study_of result ≡ guard_asked (within 1 10000 (spelled fail.now)) (within 1 60000 (spelled dead.now)) (within 1 600000 (spelled reclaim.now)) }
    ensures range { ForSome result IsStudy }
{
    let fail_ms = number_within(fail, 1, 10_000)?;
    let dead_ms = number_within(dead, 1, 60_000)?;
    let reclaim_ms = number_within(reclaim, 1, 600_000)?;
    Some(Study::Guard {
        fail_ms,
        dead_ms,
        reclaim_ms,
    })
}

/// What `backup` asks for, where its words are a curve and numbers in their ranges.
fn backup_of(curve: &str, pickup: &str, tms: &str) -> Option<Study>
    ensures value { option_map study_of result ≡ backup_asked (curve_by curve.now) (within 1 100000000 (spelled pickup.now)) (within 25 1500 (spelled tms.now)) }
    ensures range { ForSome result IsStudy }
{
    let curve = curve_named(curve)?;
    let pickup = number_within(pickup, 1, 100_000_000)?;
    let tms = number_within(tms, 25, 1500)?;
    Some(Study::Backup { curve, pickup, tms })
}

/// The curve of this name.
fn curve_named(word: &str) -> Option<Curve>
    ensures { result ≡ curve_by word.now }
{
    if word == "very" {
        Some(Curve::Very)
    } else if word == "extremely" {
        Some(Curve::Extremely)
    } else {
        None
    }
}

/// The number that a word spells, where it is from `low` to `high`.
fn number_within(word: &str, low: u32, high: u32) -> Option<u32>
    ensures value { result ≡ within low high (spelled word.now) }
    ensures range { ForSome result (λ n. (low ≤ n) × (n ≤ high)) }
{
    let number = number_of(word)?;
    if u64::from(low) <= number && number <= u64::from(high) {
        Some(number as u32)
    } else {
        None
    }
}

/// The number that a word spells, below 2^64: in decimal digits, without a sign or a needless leading zero.
fn number_of(word: &str) -> Option<u64>
    ensures { result ≡ within 0 (2 ^ 64 - 1) (spelled word.now) }
{
    let number: u64 = match word.parse() {
        Ok(number) => number,
        Err(_) => return None,
    };
    if are_equal(digits_of(number).as_slice(), word.as_bytes()) {
        Some(number)
    } else {
        None
    }
}

/// The decimal digits of a number.
fn digits_of(number: u64) -> ArrayVec<u8, 20>
    ensures digits { result.items ≡ decimal number }
    ensures small { number < 2 ^ 64 }
{
    let mut digits = ArrayVec::new();
    put_decimal(&mut digits, number);
    digits
}

fn are_equal(a: &[u8], b: &[u8]) -> bool
    ensures { result ≡ bytes_eq a.now b.now }
{
    a == b
}
