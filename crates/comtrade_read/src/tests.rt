//! A pair of three samples, and what breaks it.
use crate::{PairError, PairSample, read_pair};
use std::alloc::Global;
use std::test::Fail;

const CONFIG: &str = "L_1,relay,1999\r
8,6A,2D\r
1,IA,A,,mA,1,0,0,-268435455,268435455,1,1,P\r
2,IB,B,,mA,1,0,0,-268435455,268435455,1,1,P\r
3,IC,C,,mA,1,0,0,-268435455,268435455,1,1,P\r
4,UA,A,,mV,10,0,0,-268435455,268435455,1,1,P\r
5,UB,B,,mV,10,0,0,-268435455,268435455,1,1,P\r
6,UC,C,,mV,10,0,0,-268435455,268435455,1,1,P\r
1,GOOD,,,0\r
2,TRIP,,,0\r
50\r
1\r
4800,3\r
29/02/2024,23:59:59.999791\r
01/03/2024,00:00:00.000208\r
ASCII\r
1\r
";

const DATA: &str = "1,0,-1,-268435455,0,6159000,-7757500,1598000,1,0\r
2,208,268435455,0,-250,3079500,0,9,1,0\r
3,416,0,0,0,0,0,0,1,1\r
\x1A";

/// Which text of the pair.
#[derive(Clone, Copy, PartialEq, Eq)]
enum Part {
    Config,
    Data,
}

/// One rule broken once: what stands in that text, and what stands in its place.
struct Row {
    breaks: &'static str,
    part: Part,
    old: &'static str,
    new: &'static str,
}

static ROWS: [Row; 82] = [
    Row {
        breaks: "empty name",
        part: Part::Config,
        old: "L_1,relay",
        new: ",relay",
    },
    Row {
        breaks: "name of 17 bytes",
        part: Part::Config,
        old: "L_1,",
        new: "ABCDEFGHIJKLMNOPQ,",
    },
    Row {
        breaks: "comma in a name",
        part: Part::Config,
        old: "L_1",
        new: "L,1",
    },
    Row {
        breaks: "blank in a name",
        part: Part::Config,
        old: "L_1",
        new: "L 1",
    },
    Row {
        breaks: "0x7F in a name",
        part: Part::Config,
        old: "L_1",
        new: "L\x7F1",
    },
    Row {
        breaks: "another year of the standard",
        part: Part::Config,
        old: "relay,1999",
        new: "relay,2013",
    },
    Row {
        breaks: "another device",
        part: Part::Config,
        old: "relay",
        new: "Relay",
    },
    Row {
        breaks: "channels in another number",
        part: Part::Config,
        old: "8,6A,2D",
        new: "7,6A,1D",
    },
    Row {
        breaks: "a wrong channel",
        part: Part::Config,
        old: "4,UA,A,,mV,10",
        new: "4,UA,A,,mV,1",
    },
    Row {
        breaks: "a channel left out",
        part: Part::Config,
        old: "2,IB,B,,mA,1,0,0,-268435455,268435455,1,1,P\r\n",
        new: "",
    },
    Row {
        breaks: "another word channel",
        part: Part::Config,
        old: "2,TRIP,,,0",
        new: "2,TRIP,,,1",
    },
    Row {
        breaks: "nominal of 55",
        part: Part::Config,
        old: "50\r\n1\r\n",
        new: "55\r\n1\r\n",
    },
    Row {
        breaks: "leading zero in the nominal",
        part: Part::Config,
        old: "50\r\n1\r\n",
        new: "050\r\n1\r\n",
    },
    Row {
        breaks: "two rates",
        part: Part::Config,
        old: "50\r\n1\r\n",
        new: "50\r\n2\r\n",
    },
    Row {
        breaks: "rate of 4801",
        part: Part::Config,
        old: "4800,3",
        new: "4801,3",
    },
    Row {
        breaks: "leading zero in the rate",
        part: Part::Config,
        old: "4800,3",
        new: "04800,3",
    },
    Row {
        breaks: "sign before the rate",
        part: Part::Config,
        old: "4800,3",
        new: "+4800,3",
    },
    Row {
        breaks: "no count",
        part: Part::Config,
        old: "4800,3",
        new: "4800,",
    },
    Row {
        breaks: "count of 0",
        part: Part::Config,
        old: "4800,3",
        new: "4800,0",
    },
    Row {
        breaks: "count of 578",
        part: Part::Config,
        old: "4800,3",
        new: "4800,578",
    },
    Row {
        breaks: "count above the lines",
        part: Part::Config,
        old: "4800,3",
        new: "4800,4",
    },
    Row {
        breaks: "count below the lines",
        part: Part::Config,
        old: "4800,3",
        new: "4800,2",
    },
    Row {
        breaks: "leading zero in the count",
        part: Part::Config,
        old: "4800,3",
        new: "4800,03",
    },
    Row {
        breaks: "no end of a line",
        part: Part::Config,
        old: "4800,3\r\n",
        new: "4800,3",
    },
    Row {
        breaks: "line feed alone",
        part: Part::Config,
        old: "4800,3\r\n",
        new: "4800,3\n",
    },
    Row {
        breaks: "carriage return alone",
        part: Part::Config,
        old: "4800,3\r\n",
        new: "4800,3\r",
    },
    Row {
        breaks: "30 February",
        part: Part::Config,
        old: "29/02/2024",
        new: "30/02/2024",
    },
    Row {
        breaks: "29 February of 2023",
        part: Part::Config,
        old: "29/02/2024",
        new: "29/02/2023",
    },
    Row {
        breaks: "31 April",
        part: Part::Config,
        old: "29/02/2024",
        new: "31/04/2024",
    },
    Row {
        breaks: "day 0",
        part: Part::Config,
        old: "29/02/2024",
        new: "00/02/2024",
    },
    Row {
        breaks: "month 13",
        part: Part::Config,
        old: "29/02/2024",
        new: "29/13/2024",
    },
    Row {
        breaks: "month 0",
        part: Part::Config,
        old: "29/02/2024",
        new: "29/00/2024",
    },
    Row {
        breaks: "year 1969",
        part: Part::Config,
        old: "29/02/2024",
        new: "28/02/1969",
    },
    Row {
        breaks: "year 2107",
        part: Part::Config,
        old: "29/02/2024",
        new: "28/02/2107",
    },
    Row {
        breaks: "one digit of a day",
        part: Part::Config,
        old: "01/03/2024",
        new: "1/03/2024",
    },
    Row {
        breaks: "three digits of a month",
        part: Part::Config,
        old: "01/03/2024",
        new: "01/003/2024",
    },
    Row {
        breaks: "hour 24",
        part: Part::Config,
        old: "23:59:59.999791",
        new: "24:59:59.999791",
    },
    Row {
        breaks: "minute 60",
        part: Part::Config,
        old: "23:59:59.999791",
        new: "23:60:59.999791",
    },
    Row {
        breaks: "second 60",
        part: Part::Config,
        old: "23:59:59.999791",
        new: "23:59:60.999791",
    },
    Row {
        breaks: "five digits of microseconds",
        part: Part::Config,
        old: "23:59:59.999791",
        new: "23:59:59.99979",
    },
    Row {
        breaks: "seven digits of microseconds",
        part: Part::Config,
        old: "23:59:59.999791",
        new: "23:59:59.9997910",
    },
    Row {
        breaks: "no time",
        part: Part::Config,
        old: ",23:59:59.999791",
        new: "",
    },
    Row {
        breaks: "extra blank behind a time",
        part: Part::Config,
        old: "00:00:00.000208",
        new: "00:00:00.000208 ",
    },
    Row {
        breaks: "lower case",
        part: Part::Config,
        old: "ASCII",
        new: "ascii",
    },
    Row {
        breaks: "another form",
        part: Part::Config,
        old: "ASCII",
        new: "BINARY",
    },
    Row {
        breaks: "another factor",
        part: Part::Config,
        old: "ASCII\r\n1",
        new: "ASCII\r\n2",
    },
    Row {
        breaks: "extra line",
        part: Part::Config,
        old: "ASCII\r\n1\r\n",
        new: "ASCII\r\n1\r\n\r\n",
    },
    Row {
        breaks: "text behind the configuration",
        part: Part::Config,
        old: "ASCII\r\n1\r\n",
        new: "ASCII\r\n1\r\n1",
    },
    Row {
        breaks: "no end of the last line",
        part: Part::Config,
        old: "ASCII\r\n1\r\n",
        new: "ASCII\r\n1",
    },
    Row {
        breaks: "leading zero in a place",
        part: Part::Data,
        old: "2,208,",
        new: "02,208,",
    },
    Row {
        breaks: "place that skips",
        part: Part::Data,
        old: "2,208,",
        new: "3,208,",
    },
    Row {
        breaks: "place that stays",
        part: Part::Data,
        old: "2,208,",
        new: "1,208,",
    },
    Row {
        breaks: "first place of 0",
        part: Part::Data,
        old: "1,0,-1",
        new: "0,0,-1",
    },
    Row {
        breaks: "time that begins at 1",
        part: Part::Data,
        old: "1,0,-1",
        new: "1,1,-1",
    },
    Row {
        breaks: "leading zero in a time",
        part: Part::Data,
        old: "2,208,",
        new: "2,0208,",
    },
    Row {
        breaks: "time that stays",
        part: Part::Data,
        old: "2,208,",
        new: "2,0,",
    },
    Row {
        breaks: "time that falls",
        part: Part::Data,
        old: "3,416,",
        new: "3,207,",
    },
    Row {
        breaks: "time of 144001",
        part: Part::Data,
        old: "3,416,",
        new: "3,144001,",
    },
    Row {
        breaks: "time below 0",
        part: Part::Data,
        old: "2,208,",
        new: "2,-208,",
    },
    Row {
        breaks: "leading zero in a value",
        part: Part::Data,
        old: ",-268435455,",
        new: ",-0268435455,",
    },
    Row {
        breaks: "minus zero",
        part: Part::Data,
        old: "3,416,0,",
        new: "3,416,-0,",
    },
    Row {
        breaks: "plus one",
        part: Part::Data,
        old: "3,416,0,",
        new: "3,416,+1,",
    },
    Row {
        breaks: "value of 268435456",
        part: Part::Data,
        old: ",268435455,",
        new: ",268435456,",
    },
    Row {
        breaks: "value of -268435456",
        part: Part::Data,
        old: ",-268435455,",
        new: ",-268435456,",
    },
    Row {
        breaks: "no value",
        part: Part::Data,
        old: "3,416,0,",
        new: "3,416,,",
    },
    Row {
        breaks: "letter in a value",
        part: Part::Data,
        old: "3,416,0,",
        new: "3,416,1e1,",
    },
    Row {
        breaks: "blank before a value",
        part: Part::Data,
        old: "3,416,0,",
        new: "3,416, 0,",
    },
    Row {
        breaks: "five values",
        part: Part::Data,
        old: "3,416,0,0,",
        new: "3,416,0,",
    },
    Row {
        breaks: "seven values",
        part: Part::Data,
        old: "3,416,0,0,",
        new: "3,416,0,0,0,",
    },
    Row {
        breaks: "no comma",
        part: Part::Data,
        old: ",1,0\r\n3",
        new: ",10\r\n3",
    },
    Row {
        breaks: "good of 2",
        part: Part::Data,
        old: ",1,1\r\n",
        new: ",2,1\r\n",
    },
    Row {
        breaks: "trip of 2",
        part: Part::Data,
        old: ",1,1\r\n",
        new: ",1,2\r\n",
    },
    Row {
        breaks: "an extra word",
        part: Part::Data,
        old: ",1,1\r\n",
        new: ",1,1,1\r\n",
    },
    Row {
        breaks: "blank behind a word",
        part: Part::Data,
        old: ",1,1\r\n",
        new: ",1,1 \r\n",
    },
    Row {
        breaks: "no carriage return",
        part: Part::Data,
        old: ",1,1\r\n",
        new: ",1,1\n",
    },
    Row {
        breaks: "no line feed",
        part: Part::Data,
        old: ",1,1\r\n",
        new: ",1,1\r",
    },
    Row {
        breaks: "no end of the file",
        part: Part::Data,
        old: "\x1A",
        new: "",
    },
    Row {
        breaks: "two ends of the file",
        part: Part::Data,
        old: "\x1A",
        new: "\x1A\x1A",
    },
    Row {
        breaks: "text behind the end",
        part: Part::Data,
        old: "\x1A",
        new: "\x1A1",
    },
    Row {
        breaks: "end before the last line",
        part: Part::Data,
        old: "3,416,",
        new: "\x1A3,416,",
    },
    Row {
        breaks: "end within a value",
        part: Part::Data,
        old: "3,416,0,",
        new: "3,416,\x1A0,",
    },
    Row {
        breaks: "empty line",
        part: Part::Data,
        old: "3,416,",
        new: "\r\n3,416,",
    },
];

/// The text with the first such part changed, where it has one.
fn changed(alloc: Global, text: &str, old: &str, new: &str) -> Result<Vec<u8>, Fail> {
    let Some((front, behind)) = text.split_once(old) else {
        return Err(Fail::from("the text has no such part"));
    };
    let mut bytes = Vec::new(alloc);
    bytes.extend_from_slice(front.as_bytes())?;
    bytes.extend_from_slice(new.as_bytes())?;
    bytes.extend_from_slice(behind.as_bytes())?;
    Ok(bytes)
}

/// Why the pair isn't read, if it isn't.
fn error_of(alloc: Global, config: &[u8], data: &[u8]) -> Option<PairError> {
    match read_pair(alloc, config, data) {
        Ok(_) => None,
        Err(error) => Some(error),
    }
}

#[test]
fn a_pair_is_read(rt: HostRuntime) -> Result<(), Fail> {
    let Ok(pair) = read_pair(rt.alloc(), CONFIG.as_bytes(), DATA.as_bytes()) else {
        return Err(Fail::from("the pair isn't read"));
    };
    assert_eq!(rt; pair.rate, 4800);
    let samples = [
        PairSample {
            micros: 0,
            values: [-1, -268435455, 0, 6159000, -7757500, 1598000],
            good: true,
            trip: false,
        },
        PairSample {
            micros: 208,
            values: [268435455, 0, -250, 3079500, 0, 9],
            good: true,
            trip: false,
        },
        PairSample {
            micros: 416,
            values: [0, 0, 0, 0, 0, 0],
            good: true,
            trip: true,
        },
    ];
    assert_eq!(rt; pair.samples.as_slice(), samples.as_slice());
    Ok(())
}

#[test]
fn other_values_of_the_grammar_are_read(rt: HostRuntime) -> Result<(), Fail> {
    let others: [(Part, &str, &str); 10] = [
        (Part::Config, "L_1", "~"),
        (Part::Config, "L_1", "!BCDEFGHIJKLMNOP"),
        (Part::Config, "50\r\n1\r\n", "60\r\n1\r\n"),
        (Part::Config, "4800,3", "4000,3"),
        (Part::Config, "29/02/2024", "01/01/1970"),
        (Part::Config, "29/02/2024", "31/12/2106"),
        (Part::Config, "23:59:59.999791", "00:00:00.000000"),
        (Part::Data, "3,416,", "3,144000,"),
        (Part::Data, "3,416,", "3,209,"),
        (Part::Data, ",1,1\r\n", ",0,0\r\n"),
    ];
    for (part, old, new) in others {
        let config = if part == Part::Config {
            changed(rt.alloc(), CONFIG, old, new)?
        } else {
            changed(rt.alloc(), CONFIG, "", "")?
        };
        let data = if part == Part::Data {
            changed(rt.alloc(), DATA, old, new)?
        } else {
            changed(rt.alloc(), DATA, "", "")?
        };
        assert_eq!(rt;
            error_of(rt.alloc(), config.as_slice(), data.as_slice()),
            None,
            "{new}"
        );
    }
    Ok(())
}

#[test]
fn each_broken_rule_is_refused(rt: HostRuntime) -> Result<(), Fail> {
    for row in &ROWS {
        let error = match row.part {
            Part::Config => {
                let config = changed(rt.alloc(), CONFIG, row.old, row.new)?;
                error_of(rt.alloc(), config.as_slice(), DATA.as_bytes())
            }
            Part::Data => {
                let data = changed(rt.alloc(), DATA, row.old, row.new)?;
                error_of(rt.alloc(), CONFIG.as_bytes(), data.as_slice())
            }
        };
        assert_eq!(rt; error, Some(PairError::Refused), "{}", row.breaks);
    }
    Ok(())
}

/// Data of so many samples, 208 microseconds apart.
fn data_of(alloc: Global, count: u64) -> Result<String, Fail> {
    let mut text = String::new(alloc);
    for i in 0..count {
        let micros = i.wrapping_mul(208);
        let place = i.wrapping_add(1);
        let line = format!(in alloc; "{place},{micros},0,0,0,0,0,0,1,0\r\n")?;
        text.push_str(line.as_str())?;
    }
    text.push_str("\x1A")?;
    Ok(text)
}

#[test]
fn one_to_577_samples_are_read(rt: HostRuntime) -> Result<(), Fail> {
    let rows: [(&str, u64, Option<PairError>); 4] = [
        ("4800,0", 0, Some(PairError::Refused)),
        ("4800,1", 1, None),
        ("4800,577", 577, None),
        ("4800,578", 578, Some(PairError::Refused)),
    ];
    for (line, count, error) in rows {
        let config = changed(rt.alloc(), CONFIG, "4800,3", line)?;
        let data = data_of(rt.alloc(), count)?;
        assert_eq!(rt;
            error_of(rt.alloc(), config.as_slice(), data.as_bytes()),
            error,
            "{line}"
        );
    }
    Ok(())
}

#[test]
fn empty_texts_are_refused(rt: HostRuntime) -> Result<(), Fail> {
    assert_eq!(rt;
        error_of(rt.alloc(), b"", DATA.as_bytes()),
        Some(PairError::Refused)
    );
    assert_eq!(rt;
        error_of(rt.alloc(), CONFIG.as_bytes(), b""),
        Some(PairError::Refused)
    );
    Ok(())
}
