//! The fields of an ASDU, gathered as they come.
ghost use Rattle.std.specs.Prelude.{◌≡◌, ◌+◌, ◌≤◌, length, IfSome};
ghost use Rattle.std.specs.Option.{option_map, ForSome};
ghost use Rattle.sv_frame.specs.Gathering.{of_size};

use crate::lent::Asdu;
use crate::tags;
use byteorder::{BigEndian, ByteOrder};

/// The required fields that came so far, and the least known tag that may still come.
#[derive(Drop)]
pub struct Fields<'a> {
    low: u8,
    sv_id: Option<&'a [u8]>,
    counter: Option<&'a [u8]>,
    conf_rev: Option<&'a [u8]>,
    synch: Option<&'a [u8]>,
    samples: Option<&'a [u8]>,
    ghost small: { ForSome samples (λ x. length x.now ≤ 2048) },
}

/// Contents that have this length.
fn of_size(size: usize, contents: Option<&[u8]>) -> Option<&[u8]>
    ensures exact { option_map (λ x. x.now) result ≡ of_size size (option_map (λ x. x.now) contents.entry) }
    ensures size { IfSome result (λ x. length x.now ≡ size) }
{
    let bytes = contents?;
    if bytes.len() == size {
        Some(bytes)
    } else {
        None
    }
}

impl<'a> Fields<'a> {
    ghost use Rattle.std.specs.Prelude.{if◌then◌else◌, Some, None};
    ghost use Rattle.ber_fields.specs.Element.{element};
    ghost use Rattle.sv_frame.specs.Asdu.{plain_asdu};
    ghost use Rattle.sv_frame.specs.Gathering.{nothing_gathered, joined, with_field, asdu_by};
    ghost use Rattle.sv_frame.specs.Tags.{last_field};
    ghost use Rattle.sv_frame.specs.Views.{plain_fields};

    /// Before the first field.
    pub(crate) fn none() -> Fields<'a>
        ensures { plain_fields result ≡ nothing_gathered }
    {
        Fields {
            low: tags::FIRST_FIELD,
            sv_id: None,
            counter: None,
            conf_rev: None,
            synch: None,
            samples: None,
        }
    }

    /// Keeps a field whose tag is known.
    fn join(&mut self, tag: u8, contents: &'a [u8])
        requires tag { tag ≤ last_field }
        requires small { length contents.now ≤ 2048 }
        ensures { plain_fields self.new ≡ joined (element tag contents.now) (plain_fields self.old) }
    {
        self.low = tag + 1;
        match tag {
            tags::SV_ID => self.sv_id = Some(contents),
            tags::COUNTER => self.counter = Some(contents),
            tags::CONF_REV => self.conf_rev = Some(contents),
            tags::SYNCH => self.synch = Some(contents),
            tags::SAMPLES => self.samples = Some(contents),
            _ => {}
        }
    }

    /// Takes one more field. `false` comes exactly where its tag is one that an ASDU knows and isn't above those
    /// before.
    pub(crate) fn add(&mut self, tag: u8, contents: &'a [u8]) -> bool
        requires { length contents.now ≤ 2048 }
        ensures { with_field (element tag contents.now) (plain_fields self.old) ≡ (if result then Some (plain_fields self.new) else None) }
    {
        if tag > tags::LAST_FIELD {
            return true;
        }
        if tag < self.low {
            return false;
        }
        self.join(tag, contents);
        true
    }

    /// What the fields say, where the required ones are there.
    pub(crate) fn asdu(&self) -> Option<Asdu<'a>>
        ensures { option_map plain_asdu result ≡ asdu_by (plain_fields self.now) }
    {
        let sv_id = self.sv_id?;
        let counter = of_size(2, self.counter)?;
        let conf_rev = of_size(4, self.conf_rev)?;
        let synch = of_size(1, self.synch)?;
        let samples = self.samples?;
        Some(Asdu {
            sv_id,
            counter: BigEndian::read_u16(counter),
            conf_rev: BigEndian::read_u32(conf_rev),
            synch: synch[0],
            samples,
        })
    }
}
