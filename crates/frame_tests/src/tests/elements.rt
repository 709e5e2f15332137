//! Elements as ITU-T X.690 spells them.
ghost use Rattle.std.specs.Prelude.{◌≡◌, ◌<◌};

use arrayvec::ArrayVec;
use ber_fields::{BadHead, BerHead, head, put_bits, put_bool, put_head, put_text, put_unsigned};
use relay_num::open_steps;
use std::marker::Brand;
use std::sync::ledger::{Blank, Ledger};

fn first_head<L: Ledger>(bytes: &[u8], blank: Blank) -> Result<BerHead, BadHead>
    requires name { blank.name ≡ L.name }
    requires parts { blank.parts ≡ L.parts }
    requires shares { 0 < blank.parts }
{
    head(bytes, 0, &mut open_steps::<L>(blank))
}

#[test]
fn heads_have_one_tag_byte_and_a_definite_length(rt: HostRuntime) {
    let whole = BerHead {
        tag: 0x60,
        start: 4,
        end: 5,
    };
    let found = first_head::<Brand>(&[0x60, 0x82, 0x00, 0x01, 0xff], Blank::new(1));
    assert_eq!(rt; found, Ok(whole));
    assert_eq!(rt;
        first_head::<Brand>(&[0x60, 0x80], Blank::new(1)),
        Err(BadHead)
    );
    assert_eq!(rt;
        first_head::<Brand>(&[0x9f, 0x01, 0x00], Blank::new(1)),
        Err(BadHead)
    );
}

#[test]
fn elements_are_written_in_their_shortest_form(rt: HostRuntime) {
    let mut out = ArrayVec::new();
    put_head(&mut out, 0x30, 201);
    put_head(&mut out, 0x30, 435);
    put_unsigned(&mut out, 0x02, 127);
    put_unsigned(&mut out, 0x02, 128);
    put_unsigned(&mut out, 0x02, 256);
    put_bool(&mut out, 0x01, true);
    put_text(&mut out, 0x1a, b"Jones");
    put_bits(&mut out, 0x03, 4, &[0x0a, 0x3b, 0x5f, 0x29, 0x1c, 0xd0]);
    let want = [
        0x30, 0x81, 0xc9, 0x30, 0x82, 0x01, 0xb3, 0x02, 0x01, 0x7f, 0x02, 0x02, 0x00, 0x80, 0x02,
        0x02, 0x01, 0x00, 0x01, 0x01, 0x01, 0x1a, 0x05, 0x4a, 0x6f, 0x6e, 0x65, 0x73, 0x03, 0x07,
        0x04, 0x0a, 0x3b, 0x5f, 0x29, 0x1c, 0xd0,
    ];
    assert_eq!(rt; out.as_slice(), want.as_slice());
}
