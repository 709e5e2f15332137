//! MAC addresses.
ghost use Rattle.std.specs.Prelude.{◌≡◌, ◌≤◌, ◌<◌, ◌+◌, length, option_map, IsTrue};
ghost use Rattle.std.specs.List.{list_all, zip};
ghost use Rattle.settings_read.specs.Octets.{is_hex, hex_value, fits_octets, has_octets_form, octet, octets_of_word};

fn is_hex(b: u8) -> bool
    ensures { result ≡ is_hex b }
{
    (48 <= b && b <= 57) || (65 <= b && b <= 70) || (97 <= b && b <= 102)
}

fn hex_value(b: u8) -> u8
    ensures value { result ≡ hex_value b }
    ensures short { result ≤ 15 }
{
    if 48 <= b && b <= 57 {
        b - 48
    } else if 65 <= b && b <= 70 {
        b - 55
    } else if 97 <= b && b <= 102 {
        b - 87
    } else {
        0
    }
}

fn fits_octets(form: u8, b: u8) -> bool
    ensures { result ≡ fits_octets (form, b) }
{
    if form == 48 { is_hex(b) } else { form == b }
}

fn all_fit(form: &[u8], text: &[u8]) -> bool
    ensures { result ≡ list_all fits_octets (zip form.now text.now) }
{
    form.iter()
        .zip(text)
        .all(|(form, b)| fits_octets(*form, *b))
}

fn has_octets_form(text: &[u8]) -> bool
    ensures value { result ≡ has_octets_form text.now }
    ensures long { IsTrue result → length text.now ≡ 17 }
{
    let fit = all_fit(b"00-00-00-00-00-00".as_slice(), text);
    text.len() == 17 && fit
}

fn octet(text: &[u8], at: usize) -> u8
    requires { at + 1 < length text.now }
    ensures { result ≡ octet text.now at }
{
    hex_value(text[at]) * 16 + hex_value(text[at + 1])
}

/// The octets of a MAC address's text.
#[tactic(auto, unfolding(crate::specs::Octets::octets_of_word))]
pub(crate) fn octets_of_word(text: &[u8]) -> Option<[u8; 6]>
    ensures { option_map (λ o. o) result ≡ octets_of_word text.now }
{
    if !has_octets_form(text) {
        return None;
    }
    Some([
        octet(text, 0),
        octet(text, 3),
        octet(text, 6),
        octet(text, 9),
        octet(text, 12),
        octet(text, 15),
    ])
}
